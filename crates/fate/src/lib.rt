// What becomes of a way of choosing in a window: its product's box, the axis on which that is empty, or the product after its cuts.

#![tactic(auto)]

pub mod told;

ghost use Rattle.std.specs.Prelude.{◌+◌, ◌<◌, ◌≡◌, get_or};
ghost use Rattle.rules.specs.Boxes.{common_box};
ghost use Rattle.rules.specs.Choices.{in_of, choices, expansion};
ghost use Rattle.rules.specs.Inside.{bounds};
ghost use Rattle.rules.specs.Products.{product_box};
ghost use Rattle.rules.specs.Table.{row_count, primitives_before, primitives};
ghost use Rattle.rules.specs.Tree.{tree_of};
ghost use Rattle.laws.specs.Plans.{nothing};
ghost use Rattle.laws.specs.Sound.{Sound};
ghost use Rattle.choice.specs.Steps.{Numbered, Remembered};
ghost use Rattle.fate.specs.Fates.{cut_by, fate_by, fate_in};

use rules::{Axis, BoxShape, Product, Window};

// What two boxes have in common.
fn cut_box(a: BoxShape, b: BoxShape) -> BoxShape
    ensures { bounds result ≡ common_box (bounds a) (bounds b) }
{
    BoxShape {
        xlo: a.xlo.max(b.xlo),
        xhi: a.xhi.min(b.xhi),
        ylo: a.ylo.max(b.ylo),
        yhi: a.yhi.min(b.yhi),
        zlo: a.zlo.max(b.zlo),
        zhi: a.zhi.min(b.zhi),
    }
}

// A box, cut with that of a row if the row is a chosen primitive: what the rows before it still cut stays the same.
fn cut_by_row(table: &[i32], bits: &[u64; 127], row: usize, c: Product, b: BoxShape) -> BoxShape
    requires sound { Sound table.now }
    requires row_bound { row < row_count table.now }
    requires numbered { Numbered table.now bits.now }
    ensures { cut_by c (primitives_before table.now row) (bounds result) ≡ cut_by c (primitives_before table.now (row + 1)) (bounds b) }
{
    match table::primitive_at(table, row) {
        Some(s) if bits[row] & c.plain != 0 => cut_box(solid::box_of(s), b),
        _ => b,
    }
}

// A product's box: the window, cut with the boxes of the uncomplemented primitives, the last first.
pub fn product_box(table: &[i32], bits: &[u64; 127], c: Product, w: Window) -> BoxShape
    requires sound { Sound table.now }
    requires numbered { Numbered table.now bits.now }
    ensures { bounds result ≡ product_box w (primitives table.now) c }
{
    let mut b = BoxShape::from(w);
    for row in (0..table::row_count(table)).rev() {
        b = cut_by_row(table, bits, row, c, b);
    }
    b
}

// Kept as a product, or dropped on the first axis on which the box is empty.
fn by_box(b: BoxShape, kept: Product) -> Result<Product, Axis>
    ensures { result ≡ fate_by (bounds b) kept }
{
    if b.xhi < b.xlo {
        return Err(Axis::Column);
    }
    if b.yhi < b.ylo {
        return Err(Axis::Code);
    }
    if b.zhi < b.zlo {
        return Err(Axis::Frame);
    }
    Ok(kept)
}

// What becomes of a choice in a window: the product that is kept of it, or the first axis on which its box is empty.
pub fn fate_in(table: &[i32], bits: &[u64; 127], c: Product, w: Window) -> Result<Product, Axis>
    requires sound { Sound table.now }
    requires numbered { Numbered table.now bits.now }
    ensures { result ≡ fate_in w (primitives table.now) c }
{
    let b = product_box(table, bits, c, w);
    let cuts = c.cuts & reach::sharing_with(table, b);
    by_box(b, Product { cuts, ..c })
}

// How many ways of choosing a zone has.
pub fn ways(table: &[i32], bits: &[u64; 127], counts: &mut [u64; 254]) -> u64
    requires sound { Sound table.now }
    requires numbered { Numbered table.now bits.now }
    requires remembered { Remembered table.now counts.old }
    ensures { (result ≡ expansion (tree_of table.now)) × Remembered table.now counts.new }
{
    choice::count_ways(table, bits, counts, table::root(table), true)
}

// The k-th of them.
pub fn way(table: &[i32], bits: &[u64; 127], counts: &mut [u64; 254], k: u64) -> Product
    requires sound { Sound table.now }
    requires numbered { Numbered table.now bits.now }
    requires remembered { Remembered table.now counts.old }
    requires k_bound { k < expansion (tree_of table.now) }
    ensures { (result ≡ get_or (choices in_of (tree_of table.now)) k nothing) × Remembered table.now counts.new }
{
    choice::choose(table, bits, counts, table::root(table), true, k)
}
