// The tree of a table in prefix form, a word a node.

#![tactic(auto)]

ghost use Rattle.std.specs.Prelude.{◌+◌, ◌≤◌, ◌<◌, ◌≡◌, length, MatchOption};
ghost use Rattle.rules.specs.Form.{leaf};
ghost use Rattle.rules.specs.Table.{row_count, primitives, primitives_before};
ghost use Rattle.rules.specs.TreeRows.{rows_in};
ghost use Rattle.laws.specs.Sound.{Sound};
ghost use Rattle.moves.specs.Moves.{most_words, operation_number};
ghost use Rattle.flatten.specs.Forms.{form_at, Branches, Laid};

use moves::Operation::{self, Diff, Inter, Union};
use rules::Row;

// The operation of a row and the rows of its two parts, unless the row is a primitive.
fn node_of(table: &[i32], row: usize) -> Option<(Operation, usize, usize)>
    requires sound { Sound table.now }
    requires row_bound { row < row_count table.now }
    ensures { MatchOption result (form_at table.now row ≡ leaf (length (primitives_before table.now row))) (λ node. Branches table.now row (operation_number node.0) node.1 node.2) }
{
    match table::read_row(table, row) {
        Row::Solid(_) => None,
        Row::Union(left, right) => Some((Union, left, right)),
        Row::Inter(left, right) => Some((Inter, left, right)),
        Row::Diff(left, right) => Some((Diff, left, right)),
    }
}

// One more if the row is a primitive.
fn count_row(table: &[i32], row: usize, n: usize) -> usize
    requires sound { Sound table.now }
    requires row_bound { row < row_count table.now }
    requires n_value { n ≡ length (primitives_before table.now row) }
    ensures { result ≡ length (primitives_before table.now (row + 1)) }
{
    match table::primitive_at(table, row) {
        Some(_) => n + 1,
        None => n,
    }
}

// How many primitives stand before a row: the number of a primitive there.
fn number_of(table: &[i32], row: usize) -> usize
    requires sound { Sound table.now }
    requires row_bound { row ≤ row_count table.now }
    ensures { result ≡ length (primitives_before table.now row) }
{
    let mut n: usize = 0;
    for r in 0..row {
        n = count_row(table, r, n);
    }
    n
}

// The tree of a row in prefix form, from `at` on; where it ends.
pub fn lay(table: &[i32], w: &mut [i32], at: usize, row: usize) -> usize
    requires sound { Sound table.now }
    requires row_bound { row < row_count table.now }
    requires row_in_bounds { (at + rows_in (form_at table.now row) ≤ length w.old) × (rows_in (form_at table.now row) ≤ most_words) }
    ensures { Laid table.now row at w.old w.new result }
{
    match node_of(table, row) {
        None => {
            moves::put(w, at, &[number_of(table, row)]);
            at + 1
        }
        Some((operation, left, right)) => {
            let middle = lay(table, w, at + 1, left);
            let end = lay(table, w, middle, right);
            moves::put(w, at, &[operation.word(middle - at - 1)]);
            end
        }
    }
}
