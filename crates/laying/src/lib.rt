// The plan of a zone laid out as rows in the order of the walk: a row, then its right part, then its left part; their links, and the masks that
// let the walk leave out whole blocks.

#![tactic(auto)]

ghost use Rattle.std.specs.Prelude.{◌+◌, ◌<◌, ◌≡◌};
ghost use Rattle.rules.specs.Table.{row_count};
ghost use Rattle.sizing.specs.Sizes.{Given, SizedTo};
ghost use Rattle.laying.specs.Laying.{all_rows, Laying, Laid};

use choice::Step;
use rows::{Part, PlanRow, RowKind};

// Lays out the row that is to come at a place: its own links, and its parts as rows that are to come; of a leaf the masks too.
fn lay_row(
    table: &[i32],
    bits: &[u64; 127],
    sizes: &[u8; 127],
    seen: u64,
    rows: &mut [PlanRow; 127],
    at: usize,
)
    requires given { Given table.now bits.now × SizedTo table.now sizes.now (row_count table.now) }
    requires laying { Laying table.now seen rows.old at × (at < all_rows table.now) }
    ensures { Laying table.now seen rows.new (at + 1) }
{
    let part = rows[at].links.part();
    let right = at as u8 + 1;
    match choice::read_step(table, bits, part.row, part.within) {
        Step::With(bit) => {
            let span = reach::sharing_row(table, part.row) & seen;
            rows::put_leaf(rows, at, RowKind::With, bit, span);
        }
        Step::Without(bit) => {
            rows::put_leaf(rows, at, RowKind::Without, bit, seen);
        }
        Step::Either(lhs, lhs_in, rhs, rhs_in) => {
            let left = right + sizes[rhs];
            let lhs = Part::new(lhs, lhs_in);
            let rhs = Part::new(rhs, rhs_in);
            rows::put_either(rows, at, left, lhs, rhs);
        }
        Step::Both(lhs, lhs_in, rhs, rhs_in) => {
            let left = right + sizes[rhs];
            let lhs = Part::new(lhs, lhs_in);
            let rhs = Part::new(rhs, rhs_in);
            rows::put_both(rows, at, left, lhs, rhs);
        }
    }
}

// The rows of a zone's plan, for the primitives that share a point with the window; how many there are.
pub fn lay(table: &[i32], bits: &[u64; 127], seen: u64, rows: &mut [PlanRow; 127]) -> usize
    requires { Given table.now bits.now }
    ensures { Laid table.now seen rows.new result }
{
    let sizes = sizing::sizes_of(table, bits);
    let root = Part {
        row: table::root(table),
        within: true,
    };
    let end = usize::from(sizes[root.row]);
    rows[0].links = root.links(sizes[root.row], None);
    for at in 0..end {
        lay_row(table, bits, &sizes, seen, rows, at);
    }
    filling::fill(rows, end);
    end
}
