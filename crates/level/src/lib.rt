// A place of a line, and the stretches that have it: nothing changes until the next end of a stretch. This knows nothing of zones.

#![tactic(auto)]

ghost use Rattle.std.specs.Prelude.{◌≤◌, ◌≡◌};
ghost use Rattle.span.specs.Along.{between};
ghost use Rattle.level.specs.Levels.{mark_at, Steady, Levels};

use span::Stretch;

// A stretch and its mark.
#[derive(Clone, Copy, PartialEq, Eq, Debug)]
pub struct Entry {
    pub mark: u64,
    pub stretch: Stretch,
}

// The marks that a place has, and the least place down to which they stay the same.
#[derive(Clone, Copy, PartialEq, Eq, Debug)]
pub struct Shelf {
    pub set: u64,
    pub floor: u64,
}

// The floor, raised to where a stretch says one thing up to v.
fn lift(s: Stretch, v: u64, floor: u64) -> u64
    requires { floor ≤ v }
    ensures { Steady (between s) v floor result }
{
    if s.hi < v {
        if s.hi < s.lo {
            return floor;
        }
        return floor.max(s.hi + 1);
    }
    if v < s.lo {
        return floor;
    }
    floor.max(s.lo)
}

// An entry's mark, if its stretch has the place.
fn mark_at(e: Entry, v: u64) -> u64
    ensures { result ≡ mark_at e v }
{
    if e.stretch.has(v) { e.mark } else { 0 }
}

// The entries at place v, looking no lower than `from`.
pub fn level(entries: &[Entry], v: u64, from: u64) -> Shelf
    requires { from ≤ v }
    ensures { Levels entries.now v from result }
{
    let mut set: u64 = 0;
    let mut floor = from;
    for entry in entries {
        set |= mark_at(*entry, v);
        floor = lift(entry.stretch, v, floor);
    }
    Shelf { set, floor }
}
