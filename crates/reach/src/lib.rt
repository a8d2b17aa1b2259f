// Which primitives' boxes share a point: with the window, with each other, and with a product's box. Sets of primitives are masks, primitive i as bit i.

#![tactic(auto)]

ghost use Rattle.std.specs.Prelude.{◌+◌, ◌<◌, ◌≡◌};
ghost use Rattle.std.proofs.Math.Option.{some};
ghost use Rattle.rules.specs.Boxes.{window_box, share};
ghost use Rattle.rules.specs.Inside.{bounds};
ghost use Rattle.rules.specs.Products.{box_of};
ghost use Rattle.rules.specs.declared.Primitive.{Primitive};
ghost use Rattle.rules.specs.declared.Row.TheVariants.{Solid};
ghost use Rattle.rules.specs.Table.{row_count, row_at, primitives_before, primitives};
ghost use Rattle.laws.specs.Sound.{Sound};
ghost use Rattle.laws.specs.Reach.{sharing};
ghost use Rattle.reach.specs.Gathering.{apart, with_one, Gathers, meeting};

use rules::{BoxShape, Window};

// The primitives that have passed: those of which a test holds, and how many there were.
#[derive(Clone, Copy)]
pub struct Gathered {
    pub set: u64,
    pub count: usize,
}

// Two spans have nothing in common.
fn spans_part(alo: i32, ahi: i32, blo: i32, bhi: i32) -> bool
    ensures { result ≡ apart (record { lo = alo; hi = ahi }) (record { lo = blo; hi = bhi }) }
{
    let lo = alo.max(blo);
    let hi = ahi.min(bhi);
    hi < lo
}

// Two boxes share a point.
fn boxes_share(a: BoxShape, b: BoxShape) -> bool
    ensures { result ≡ share (bounds a) (bounds b) }
{
    !(spans_part(a.xlo, a.xhi, b.xlo, b.xhi)
        | (spans_part(a.ylo, a.yhi, b.ylo, b.yhi) | spans_part(a.zlo, a.zhi, b.zlo, b.zhi)))
}

// One primitive more, by whether the test holds of it.
pub fn added(g: Gathered, passes: bool) -> Gathered
    requires { g.count < 64 }
    ensures { result ≡ with_one g passes }
{
    let bit: u64 = if passes { 1 << g.count } else { 0 };
    Gathered {
        set: g.set | bit,
        count: g.count + 1,
    }
}

// One row more.
fn gather(table: &[i32], row: usize, b: BoxShape, g: Gathered) -> Gathered
    requires sound { Sound table.now }
    requires row_bound { row < row_count table.now }
    requires gathers { Gathers (primitives_before table.now row) (meeting (bounds b)) g }
    ensures { Gathers (primitives_before table.now (row + 1)) (meeting (bounds b)) result }
{
    match table::primitive_at(table, row) {
        Some(s) => added(g, boxes_share(solid::box_of(s), b)),
        None => g,
    }
}

// The primitives whose boxes share a point with a box.
pub fn sharing_with(table: &[i32], b: BoxShape) -> u64
    requires { Sound table.now }
    ensures { result ≡ sharing (primitives table.now) (bounds b) }
{
    let rows = table::row_count(table);
    let mut g = Gathered { set: 0, count: 0 };
    for row in 0..rows {
        g = gather(table, row, b, g);
    }
    g.set
}

// The primitives whose boxes share a point with a window.
pub fn seen_in(table: &[i32], w: Window) -> u64
    requires { Sound table.now }
    ensures { result ≡ sharing (primitives table.now) (window_box w) }
{
    sharing_with(table, BoxShape::from(w))
}

// The primitives whose boxes share a point with that of a row's primitive.
pub fn sharing_row(table: &[i32], row: usize) -> u64
    requires sound { Sound table.now }
    requires row_bound { row < row_count table.now }
    ensures { (s : Primitive) → row_at table.now row ≡ some (Solid s) → result ≡ sharing (primitives table.now) (box_of s) }
{
    match table::primitive_at(table, row) {
        Some(s) => sharing_with(table, solid::box_of(s)),
        None => 0,
    }
}
