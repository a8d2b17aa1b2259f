// The places of a walk: the one that it goes to next, and those that are put aside.

#![tactic(auto)]

ghost use Rattle.std.specs.Prelude.{◌+◌, ◌<◌, ◌≤◌, List, [], ◌∷◌, ◌≡◌, length, MatchOption};
ghost use Rattle.places.specs.declared.Place.{Place};
ghost use Rattle.places.specs.Places.{onward_of, aside_of, last_first};

use rows::{PlanRow, RowKind};
use std::marker::Model;

// Where a walk stands: the row that it comes to, what is chosen so far, and what is still in reach.
#[derive(Clone, Copy, PartialEq, Eq, Debug)]
pub struct Place {
    pub row: usize,
    pub plain: u64,
    pub cuts: u64,
    pub reach: u64,
}

// Where a walk begins: at the first row, with nothing chosen.
const START: Place = Place {
    row: 0,
    plain: 0,
    cuts: 0,
    reach: 0,
};

// The places that a walk has put aside: a list of at most 64, the last first.
#[derive(Drop)]
pub struct Aside {
    places: [Place; 64],
    count: usize,
}

impl Model for Aside {
    ghost Value = { List Place };

    ghost view = { λ aside. last_first aside.places aside.count };

    ghost invariant = { λ aside. aside.count ≤ 64 };
}

impl Aside {
    // Nothing is aside.
    pub fn new() -> Aside
        ensures { result ≡ [] }
    {
        Aside {
            places: [START; 64],
            count: 0,
        }
    }

    // Puts a place aside.
    pub fn push(&mut self, at: Place)
        requires { length self.old < 64 }
        ensures { self.new ≡ at ∷ self.old }
    {
        self.places[self.count] = at;
        self.count += 1;
    }

    // The place that was put aside last, if there is one.
    pub fn pop(&mut self) -> Option<Place>
        ensures { MatchOption result ((self.old ≡ []) × (self.new ≡ [])) (λ at. self.old ≡ at ∷ self.new) }
    {
        if self.count == 0 {
            return None;
        }
        self.count -= 1;
        Some(self.places[self.count])
    }
}

// The place that is walked next: after a leaf, in the left part of an `either`, in the right part of a `both`.
pub fn onward(rows: &[PlanRow; 127], at: Place) -> Place
    requires { at.row < 127 }
    ensures { result ≡ onward_of rows.now at }
{
    let here = &rows[at.row];
    let reach = at.reach & here.masks.span;
    let next = usize::from(here.links.next);
    match here.links.kind {
        RowKind::With => Place {
            row: next,
            plain: at.plain | here.masks.below,
            reach,
            ..at
        },
        RowKind::Without => Place {
            row: next,
            cuts: at.cuts | here.masks.below,
            reach,
            ..at
        },
        RowKind::Either => Place {
            row: usize::from(here.links.left),
            reach,
            ..at
        },
        RowKind::Both => Place {
            row: at.row + 1,
            reach,
            ..at
        },
    }
}

// Puts the right part of an `either` aside.
pub fn fork(rows: &[PlanRow; 127], aside: &mut Aside, at: Place)
    requires { (at.row < 127) × (length aside.old < 64) }
    ensures { aside.new ≡ aside_of rows.now at aside.old }
{
    let here = &rows[at.row];
    if here.links.kind == RowKind::Either {
        aside.push(Place {
            row: at.row + 1,
            reach: at.reach & here.masks.span,
            ..at
        });
    }
}
