// A line of points by the stretches of the primitives: the highest place that a zone holds of it. From a place down to the next end of a stretch
// nothing changes, so that two steps for each primitive and one answer any line, the codes of a column or the frames of a place.

#![tactic(auto)]

mod entries;

ghost use Rattle.std.specs.Prelude.{ℕ, ◌≤◌, ◌<◌, ◌+◌, true, false, List, [], ◌∷◌, ◌++◌, ◌≡◌, length};
ghost use Rattle.rules.specs.declared.Primitive.{Primitive};
ghost use Rattle.rules.specs.Boxes.{holds, everywhere};
ghost use Rattle.rules.specs.Table.{row_count, primitives_before, primitives};
ghost use Rattle.laws.specs.Sound.{Sound, solid_right};
ghost use Rattle.span.specs.Along.{places, between, point_at};
ghost use Rattle.level.specs.Levels.{set_at};
ghost use Rattle.says.specs.Asking.{said_by, inside_by, Ready};
ghost use Rattle.along.specs.Lines.{Highest, Lining, LinedUp};

pub use entries::Entries;
use level::Entry;
use rules::{Point, Primitive};
use says::Asked;
use span::{Line, Stretch};

// A stretch has no place of from .. to - 1: it ends before them, begins past them or is empty.
fn misses(s: Stretch, from: u64, to: u64) -> bool
    ensures { result ≡ true → (v : ℕ) → from ≤ v → v < to → between s v ≡ false }
{
    ((s.hi < from) | (to <= s.lo)) | (s.hi < s.lo)
}

// One primitive more: it gets an entry if it holds some place of from .. to - 1.
fn keep_solid(
    line: Line,
    s: Primitive,
    p: Point,
    from: u64,
    to: u64,
    entries: &mut Entries,
    met: usize,
)
    requires s_value { solid_right s ≡ true }
    requires p_value { holds everywhere p ≡ true }
    requires to_le_places { to ≤ places }
    requires kept_le_met { (length entries.old ≤ met) × (met < 64) }
    ensures { (solids : List Primitive) → Lining (point_at line p) solids from to entries.old met → Lining (point_at line p) (solids ++ (s ∷ [])) from to entries.new (met + 1) }
{
    let stretch = span::solid_span(line, s, p);
    if misses(stretch, from, to) {
        return;
    }
    let mark = 1 << met;
    entries.push(Entry { mark, stretch });
}

// One row more, after so many primitives; how many there are with it.
fn keep_row(
    table: &[i32],
    row: usize,
    line: Line,
    p: Point,
    from: u64,
    to: u64,
    entries: &mut Entries,
    met: usize,
) -> usize
    requires sound { Sound table.now }
    requires row_bound { row < row_count table.now }
    requires p_value { holds everywhere p ≡ true }
    requires to_le_places { to ≤ places }
    requires lining { Lining (point_at line p) (primitives_before table.now row) from to entries.old met }
    ensures { Lining (point_at line p) (primitives_before table.now (row + 1)) from to entries.new result }
{
    match table::primitive_at(table, row) {
        Some(s) => {
            keep_solid(line, s, p, from, to, entries, met);
            met + 1
        }
        None => met,
    }
}

// Entries for the primitives that hold some place of from .. to - 1 of a line.
fn line_up(table: &[i32], line: Line, p: Point, from: u64, to: u64, entries: &mut Entries)
    requires sound { Sound table.now }
    requires p_value { holds everywhere p ≡ true }
    requires to_le_places { to ≤ places }
    ensures { LinedUp (point_at line p) (primitives table.now) from to entries.new }
{
    entries.clear();
    let mut met: usize = 0;
    for row in 0..table::row_count(table) {
        met = keep_row(table, row, line, p, from, to, entries, met);
    }
}

// The highest place of from .. to - 1 of which the one that is asked says inside: one past it, or `from`.
fn highest(asked: Asked, table: &[i32], list: &[u64], entries: &[Entry], from: u64, to: u64) -> u64
    requires ready { Ready asked table.now list.now }
    requires from_le_to { from ≤ to }
    ensures { Highest (λ v. said_by asked table.now list.now (set_at entries.now v)) from to result }
{
    let mut left = to;
    while from < left {
        let shelf = level::level(entries, left - 1, from);
        if says::says(asked, table, list, shelf.set) {
            return left;
        }
        left = shelf.floor;
    }
    left
}

// The highest place of from .. to - 1 that is inside, of a line through a point: one past it, or `from`. It fills the entries anew.
pub fn highest_inside(
    asked: Asked,
    table: &[i32],
    list: &[u64],
    line: Line,
    p: Point,
    from: u64,
    to: u64,
    entries: &mut Entries,
) -> u64
    requires ready { Ready asked table.now list.now }
    requires p_value { holds everywhere p ≡ true }
    requires from_le_to { (from ≤ to) × (to ≤ places) }
    ensures { Highest (λ v. inside_by asked table.now list.now (point_at line p v)) from to result }
{
    line_up(table, line, p, from, to, entries);
    highest(asked, table, list, entries.as_slice(), from, to)
}
