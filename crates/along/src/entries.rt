// The entries of a line, in memory of their own.
ghost use Rattle.std.specs.Prelude.{◌<◌, ◌≤◌, ◌≡◌, List, [], ◌∷◌, ◌++◌, length, take};
ghost use Rattle.level.specs.declared.Entry.{Entry};

use level::Entry;
use span::Stretch;
use std::marker::Model;

// Stretches with their marks, a list of them: there is room for one each primitive.
#[derive(Drop)]
pub struct Entries {
    rows: [Entry; 64],
    count: usize,
}

impl Model for Entries {
    ghost Value = { List Entry };

    ghost view = { λ e. take e.count e.rows };

    ghost invariant = { λ e. e.count ≤ 64 };
}

impl Entries {
    pub fn new() -> Self
        ensures { result ≡ [] }
    {
        let blank = Entry {
            mark: 0,
            stretch: Stretch { lo: 0, hi: 0 },
        };
        Entries {
            rows: [blank; 64],
            count: 0,
        }
    }

    pub fn clear(&mut self)
        ensures { self.new ≡ [] }
    {
        self.count = 0;
    }

    pub fn push(&mut self, entry: Entry)
        requires { length self.old < 64 }
        ensures { self.new ≡ self.old ++ entry ∷ [] }
    {
        self.rows[self.count] = entry;
        self.count += 1;
    }

    pub fn as_slice(&self) -> &[Entry]
        ensures { result.now ≡ self.now }
    {
        &self.rows[..self.count]
    }
}
