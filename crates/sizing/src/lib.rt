// How many rows of the plan each row of a table takes.

#![tactic(auto)]

ghost use Rattle.std.specs.Prelude.{true, ◌<◌, ◌≡◌};
ghost use Rattle.rules.specs.Table.{row_count};
ghost use Rattle.choice.specs.Steps.{plan_at};
ghost use Rattle.rows.specs.Lines.{rows_of};
ghost use Rattle.sizing.specs.Sizes.{Given, SizedTo};

use choice::Step;

// How many rows a row of the table takes, by those of its parts.
fn size_of_row(sizes: &[u8; 127], table: &[i32], bits: &[u64; 127], row: usize) -> u8
    requires given { Given table.now bits.now × (row < row_count table.now) }
    requires sized_to { SizedTo table.now sizes.now row }
    ensures { result ≡ rows_of (plan_at table.now row true) }
{
    match choice::read_step(table, bits, row, true) {
        Step::With(_) | Step::Without(_) => 1,
        Step::Either(left, _, right, _) | Step::Both(left, _, right, _) => {
            sizes[left] + sizes[right] + 1
        }
    }
}

// How many rows each row of the table takes.
pub fn sizes_of(table: &[i32], bits: &[u64; 127]) -> [u8; 127]
    requires { Given table.now bits.now }
    ensures { SizedTo table.now result (row_count table.now) }
{
    let mut sizes: [u8; 127] = [0; 127];
    for row in 0..table::row_count(table) {
        sizes[row] = size_of_row(&sizes, table, bits, row);
    }
    sizes
}
