// What a tree and a list say of a point, from the set of the primitives that hold it, primitive i as bit i.

#![tactic(auto)]

ghost use Rattle.std.specs.Prelude.{ℕ, ◌+◌, ◌<◌, ◌≡◌};
ghost use Rattle.rules.specs.Table.{row_count};
ghost use Rattle.rules.specs.Tree.{tree_of};
ghost use Rattle.laws.specs.Held.{tree_says, suits, suits_some};
ghost use Rattle.laws.specs.Sound.{Sound};
ghost use Rattle.laws.specs.SoundList.{SoundList};
ghost use Rattle.says.specs.Asking.{said_by, Ready};
ghost use Rattle.says.specs.Saids.{Said};

use rules::{Product, Row};

// Which is asked: the tree of a table, or a list.
#[derive(Clone, Copy)]
pub enum Asked {
    Tree,
    List,
}

// One row more. The next primitive is the lowest bit of what is left of the set; the answer is what is left then.
fn says_row(answers: &mut [bool; 127], table: &[i32], row: usize, left: u64) -> u64
    requires sound { Sound table.now }
    requires row_bound { row < row_count table.now }
    ensures { (set : ℕ) → Said table.now set row left answers.old → Said table.now set (row + 1) result answers.new }
{
    let reads = table::read_row(table, row);
    match reads {
        Row::Solid(_) => {
            answers[row] = left % 2 == 1;
            left / 2
        }
        Row::Union(one, other) => {
            answers[row] = answers[one] | answers[other];
            left
        }
        Row::Inter(one, other) => {
            answers[row] = answers[one] & answers[other];
            left
        }
        Row::Diff(one, other) => {
            answers[row] = answers[one] & !answers[other];
            left
        }
    }
}

// One pass over the rows: children are earlier rows, whose answers are there.
fn tree_says(table: &[i32], set: u64) -> bool
    requires { Sound table.now }
    ensures { result ≡ tree_says (tree_of table.now) set }
{
    let rows = table::row_count(table);
    let mut answers: [bool; 127] = [false; 127];
    let mut left = set;
    for row in 0..rows {
        left = says_row(&mut answers, table, row, left);
    }
    answers[rows - 1]
}

// All that the product asks for, and none of its cuts.
fn suits(c: Product, set: u64) -> bool
    ensures { result ≡ suits set c }
{
    (c.plain & set == c.plain) & (c.cuts & set == 0)
}

fn suits_some(list: &[u64], set: u64) -> bool
    requires { SoundList list.now }
    ensures { result ≡ suits_some list.now set }
{
    let count = list[0] as usize;
    for k in 0..count {
        if suits(layout::product_at(list, k), set) {
            return true;
        }
    }
    false
}

// What the one that is asked says of a set.
pub fn says(asked: Asked, table: &[i32], list: &[u64], set: u64) -> bool
    requires { Ready asked table.now list.now }
    ensures { result ≡ said_by asked table.now list.now set }
{
    match asked {
        Asked::Tree => tree_says(table, set),
        Asked::List => suits_some(list, set),
    }
}
