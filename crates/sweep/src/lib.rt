// A point, and a frame whose columns are filled from sample to sample, asked of the tree of a table or of a list.

#![tactic(auto)]

ghost use Rattle.std.specs.Prelude.{◌+◌, ◌<◌, ◌≤◌, true, ◌≡◌, length};
ghost use Rattle.std.proofs.Math.Option.{none};
ghost use Rattle.ground.specs.Lists.{any_of, rest};
ghost use Rattle.rules.specs.declared.Axis.TheVariants.{Frame};
ghost use Rattle.rules.specs.Boxes.{holds, everywhere};
ghost use Rattle.rules.specs.Frame.{code_at, frame_refusal, sample_inside};
ghost use Rattle.rules.specs.ListWords.{raised};
ghost use Rattle.rules.specs.Ranges.{within, columns};
ghost use Rattle.frame.specs.Tallies.{Tallied};
ghost use Rattle.span.specs.Along.{places, code_point};
ghost use Rattle.says.specs.Asking.{inside_by, Ready};
ghost use Rattle.sweep.specs.Seeing.{Before, Begun, SeenFirst};
ghost use Rattle.sweep.specs.Sweeps.{fill_places, Known, telling, with_hit};

use along::Entries;
use rules::{Hit, Place, Point};
use says::Asked;
use span::{Line, Stretch};

// A column that holds more codes than these is walked at once: a patch would hardly tell of it.
const MANY: u64 = 4096;

// Columns from..=until and codes floor..=roof on which the answer is known; and whether the column that was looked at last was hit.
#[derive(Clone, Copy)]
pub struct Patch {
    pub from: u64,
    pub until: u64,
    pub floor: u64,
    pub roof: u64,
    pub inside: bool,
    pub hit: bool,
}

// The first inside sample of a frame, and the patch by which it was looked at.
#[derive(Clone, Copy)]
pub struct Seen {
    pub sample: usize,
    pub patch: Patch,
}

// The places that a column holds, from the place of the code before it to that of its own.
fn fill_places(before: u64, own: u64) -> Stretch
    requires { (before < places) × (own < places) }
    ensures { result ≡ fill_places before own }
{
    if before < own {
        return Stretch {
            lo: before + 1,
            hi: own,
        };
    }
    if own < before {
        return Stretch {
            lo: own,
            hi: before - 1,
        };
    }
    Stretch { lo: own, hi: own }
}

// The place of sample k's code.
fn code_place(samples: &[i16], place: Place, k: usize) -> u64
    requires k_in_bounds { k < length samples.now }
    requires place_value { frame_refusal samples.now place ≡ none }
    ensures value { result ≡ raised Frame (code_at samples.now k) }
    ensures ranged { within columns (code_at samples.now k) ≡ true }
{
    let p = frame::point_at(samples, place, k);
    span::place_of(p.y)
}

// A patch tells of a stretch of a column: inside by any place that they share, outside by having all of it.
fn tells(q: Patch, x: u64, s: Stretch) -> bool
    ensures { result ≡ telling q x s }
{
    if q.inside {
        return ((q.from <= x) & (x <= q.until)) & ((q.floor <= s.hi) & (s.lo <= q.roof));
    }
    ((q.from <= x) & (x <= q.until)) & ((q.floor <= s.lo) & (s.hi <= q.roof))
}

fn with_hit(q: Patch, hit: bool) -> Patch
    ensures { result ≡ with_hit q hit }
{
    Patch { hit, ..q }
}

// A point, by the primitives that hold it.
pub fn inside_at(asked: Asked, table: &[i32], list: &[u64], p: Point) -> bool
    requires ready { Ready asked table.now list.now }
    requires p_value { holds everywhere p ≡ true }
    ensures { result ≡ inside_by asked table.now list.now p }
{
    let h = holding::hold_at(table, p);
    let found = h.found;
    says::says(asked, table, list, found.set)
}

// The patch around a point.
#[inline(always)]
fn renewed(asked: Asked, table: &[i32], list: &[u64], p: Point) -> Patch
    requires ready { Ready asked table.now list.now }
    requires p_value { holds everywhere p ≡ true }
    ensures { Known (inside_by asked table.now list.now) p.z result }
{
    let h = holding::hold_at(table, p);
    let found = h.found;
    let rect = h.rect;
    Patch {
        from: span::place_of(p.x),
        until: rect.until,
        floor: rect.floor,
        roof: rect.roof,
        inside: says::says(asked, table, list, found.set),
        hit: false,
    }
}

// A new patch for a column that does not hold too many codes.
#[inline(always)]
fn fresh(asked: Asked, table: &[i32], list: &[u64], p: Point, s: Stretch, q: Patch) -> Patch
    requires ready { Ready asked table.now list.now }
    requires p_value { holds everywhere p ≡ true }
    requires lo_lt_places { s.lo < places }
    requires known { Known (inside_by asked table.now list.now) p.z q }
    ensures { Known (inside_by asked table.now list.now) p.z result }
{
    if s.lo + MANY < s.hi {
        return q;
    }
    renewed(asked, table, list, p)
}

// Some code at the places from .. to - 1 of a point's column is inside.
fn some_inside(
    asked: Asked,
    table: &[i32],
    list: &[u64],
    p: Point,
    from: u64,
    to: u64,
    entries: &mut Entries,
) -> bool
    requires ready { Ready asked table.now list.now }
    requires p_value { holds everywhere p ≡ true }
    requires from_le_to { (from ≤ to) × (to ≤ places) }
    ensures { result ≡ any_of (λ v. inside_by asked table.now list.now (code_point p v)) (rest from to) }
{
    from < along::highest_inside(asked, table, list, Line::Codes, p, from, to, entries)
}

// One column: from the patch that is there, else from a new one, else by the walk down the column.
#[inline(always)]
fn look(
    asked: Asked,
    table: &[i32],
    list: &[u64],
    p: Point,
    before: u64,
    q: Patch,
    entries: &mut Entries,
) -> Patch
    requires ready { Ready asked table.now list.now }
    requires p_value { holds everywhere p ≡ true }
    requires before_lt_places { before < places }
    requires known { Known (inside_by asked table.now list.now) p.z q }
    ensures known { Known (inside_by asked table.now list.now) p.z result }
    ensures told { result.hit ≡ any_of (λ v. inside_by asked table.now list.now (code_point p v)) (rest (fill_places before (raised Frame p.y)).lo ((fill_places before (raised Frame p.y)).hi + 1)) }
{
    let x = span::place_of(p.x);
    let s = fill_places(before, span::place_of(p.y));
    if tells(q, x, s) {
        return with_hit(q, q.inside);
    }
    let n = fresh(asked, table, list, p, s, q);
    if tells(n, x, s) {
        return with_hit(n, n.inside);
    }
    let hit = some_inside(asked, table, list, p, s.lo, s.hi + 1, entries);
    with_hit(n, hit)
}

// The column of sample k, after a code at a place. What is done of a column is inlined, so that a patch stays in registers from sample to sample.
#[inline(always)]
fn look_at(
    asked: Asked,
    table: &[i32],
    list: &[u64],
    samples: &[i16],
    place: Place,
    k: usize,
    before: u64,
    q: Patch,
    entries: &mut Entries,
) -> Patch
    requires ready { Ready asked table.now list.now }
    requires place_value { frame_refusal samples.now place ≡ none }
    requires k_in_bounds { k < length samples.now }
    requires preceded { Before samples.now k before }
    requires known { Known (inside_by asked table.now list.now) place.frame q }
    ensures known { Known (inside_by asked table.now list.now) place.frame result }
    ensures told { result.hit ≡ sample_inside (inside_by asked table.now list.now) samples.now place k }
{
    look(
        asked,
        table,
        list,
        frame::point_at(samples, place, k),
        before,
        q,
        entries,
    )
}

// The first inside sample of a frame, if there is one.
fn first_inside(
    asked: Asked,
    table: &[i32],
    list: &[u64],
    samples: &[i16],
    place: Place,
    entries: &mut Entries,
) -> Option<Seen>
    requires ready { Ready asked table.now list.now }
    requires place_value { frame_refusal samples.now place ≡ none }
    ensures { SeenFirst (inside_by asked table.now list.now) samples.now place result }
{
    let mut before = code_place(samples, place, 0);
    let mut q = Patch {
        from: 1,
        until: 0,
        floor: 0,
        roof: 0,
        inside: false,
        hit: false,
    };
    for k in 0..samples.len() {
        q = look_at(asked, table, list, samples, place, k, before, q, entries);
        if q.hit {
            return Some(Seen {
                sample: k,
                patch: q,
            });
        }
        before = code_place(samples, place, k);
    }
    None
}

// The first inside sample and how many there are, once the first is seen.
fn count_on(
    asked: Asked,
    table: &[i32],
    list: &[u64],
    samples: &[i16],
    place: Place,
    seen: Seen,
    entries: &mut Entries,
) -> Option<Hit>
    requires ready { Ready asked table.now list.now }
    requires place_value { frame_refusal samples.now place ≡ none }
    requires begun { Begun (inside_by asked table.now list.now) samples.now place seen }
    ensures { Tallied (sample_inside (inside_by asked table.now list.now) samples.now place) (length samples.now) result }
{
    let mut before = code_place(samples, place, seen.sample);
    let mut q = seen.patch;
    let mut found = frame::counted(None, seen.sample, true);
    for k in seen.sample + 1..samples.len() {
        q = look_at(asked, table, list, samples, place, k, before, q, entries);
        found = frame::counted(found, k, q.hit);
        before = code_place(samples, place, k);
    }
    found
}

// The first inside sample of a frame and how many there are, if there is one. Before the first there is nothing to count, and after it there is one: no
// sample has to ask.
pub fn scan(asked: Asked, table: &[i32], list: &[u64], samples: &[i16], place: Place) -> Option<Hit>
    requires ready { Ready asked table.now list.now }
    requires place_value { frame_refusal samples.now place ≡ none }
    ensures { Tallied (sample_inside (inside_by asked table.now list.now) samples.now place) (length samples.now) result }
{
    let mut entries = Entries::new();
    let seen = first_inside(asked, table, list, samples, place, &mut entries)?;
    count_on(asked, table, list, samples, place, seen, &mut entries)
}
