// A plan as rows that lie one after the other, and rows put in their place.

#![tactic(auto)]

ghost use Rattle.std.specs.Prelude.{◌<◌, ◌≡◌};
ghost use Rattle.rows.specs.Lines.{coming_links, part_of};

mod plan;
mod puts;

pub use plan::PlanRows;
pub use puts::{put_both, put_either, put_leaf, put_pair};

// What a row is: with a primitive, without one, either of two parts, or both.
#[derive(Clone, Copy, PartialEq, Eq, Debug)]
pub enum RowKind {
    With,
    Without,
    Either,
    Both,
}

// Where a row leads: its left part (of a leaf: the number of its primitive), the row that is walked after it, and the right part that is done
// just before it. Its right part is the row after it.
#[derive(Clone, Copy, PartialEq, Eq, Debug)]
pub struct Links {
    pub kind: RowKind,
    pub left: u8,
    pub next: u8,
    pub done: Option<u8>,
}

// The primitives of a row, all that some choice of it can reach, and its cuts that matter to the test for repeats.
#[derive(Clone, Copy, PartialEq, Eq, Debug)]
pub struct Masks {
    pub below: u64,
    pub span: u64,
    pub risk: u64,
}

// A row of a plan.
#[derive(Clone, Copy, PartialEq, Eq, Debug)]
pub struct PlanRow {
    pub links: Links,
    pub masks: Masks,
}

// A row before anything is put there.
pub const BLANK: PlanRow = PlanRow {
    links: Links {
        kind: RowKind::With,
        left: 0,
        next: 0,
        done: None,
    },
    masks: Masks {
        below: 0,
        span: 0,
        risk: 0,
    },
};

// A part of a plan that is to come: a row of the table, on a side.
#[derive(Clone, Copy, PartialEq, Eq, Debug)]
pub struct Part {
    pub row: usize,
    pub within: bool,
}

impl Part {
    // The part at a row of the table, on a side.
    pub fn new(row: usize, within: bool) -> Part
        ensures { result ≡ record { row = row; within = within } }
    {
        Part { row, within }
    }

    // The links of a row that is to come: its side stands in place of its kind, and its row of the table in place of its left part.
    pub fn links(self, next: u8, done: Option<u8>) -> Links
        requires { self.row < 256 }
        ensures { result ≡ coming_links self next done }
    {
        let kind = if self.within {
            RowKind::With
        } else {
            RowKind::Without
        };
        Links {
            kind,
            left: self.row as u8,
            next,
            done,
        }
    }
}

impl Links {
    // The part that a row that is to come stands for.
    pub fn part(self) -> Part
        ensures { result ≡ part_of self }
    {
        Part {
            row: usize::from(self.left),
            within: self.kind == RowKind::With,
        }
    }
}
