// The check of a table: its length, its rows one after the other, and that every row but the last is a child exactly once.
ghost use Rattle.std.specs.Prelude.{◌+◌, ◌*◌, ◌≤◌, ◌<◌, ◌≡◌, length};
ghost use Rattle.std.proofs.Math.Option.{some};
ghost use Rattle.ground.specs.Lists.{rulings};
ghost use Rattle.rules.specs.Table.{word_at, row_at};
ghost use Rattle.rules.specs.Verdict.{row_refusal, row_refusal_by, children_of, child_refusal, table_refusal};
ghost use Rattle.rules.specs.TreeCalls.{TableChecked};
ghost use Rattle.laws.specs.Checking.{checked_by};
ghost use Rattle.laws.specs.Sound.{SoundRow};
ghost use Rattle.table.specs.Reading.{InTable, listed, SoundRows, times_to, once_rule};

use rules::{Kind, Refusal, Row, Rule};

// A row of a known kind: fields and spare words, then children.
fn check_known(table: &[i32], row: usize, kind: Kind) -> Result<(), Refusal>
    requires in_table { InTable table.now row }
    requires row_bound { row ≤ 127 }
    ensures { result ≡ checked_by (row_refusal_by (some kind) (word_at table.now row) row) }
{
    let start = 1 + kind.named_words();
    let right = crate::fields::fields_right(table, row, kind)
        & crate::fields::spare_right(table, row, start);
    crate::refuse_unless(right, Rule::Fields, row)?;
    crate::refuse_unless(
        crate::fields::children_right(table, row, kind),
        Rule::Children,
        row,
    )
}

fn check_row(table: &[i32], row: usize) -> Result<(), Refusal>
    requires in_table { InTable table.now row }
    requires row_bound { row ≤ 127 }
    ensures { result ≡ checked_by (row_refusal table.now row) }
{
    match Kind::try_from(crate::decode::word(table, row, 0)) {
        Ok(kind) => check_known(table, row, kind),
        Err(_) => Err(Refusal::new(Rule::Kind, row)),
    }
}

fn check_rows(table: &[i32], rows: usize) -> Result<(), Refusal>
    requires { (length table.now ≡ rows * 12) × ((1 ≤ rows) × (rows ≤ 127)) }
    ensures { result ≡ checked_by (rulings (row_refusal table.now) 0 rows) }
{
    for row in 0..rows {
        check_row(table, row)?;
    }
    Ok(())
}

// The children that a sound row names.
fn children_of(table: &[i32], row: usize) -> Option<(usize, usize)>
    requires in_table { InTable table.now row }
    requires sound_row { SoundRow table.now row }
    ensures { listed result ≡ children_of (row_at table.now row) }
{
    match crate::decode::read_row(table, row) {
        Row::Solid(_) => None,
        Row::Union(left, right) | Row::Inter(left, right) | Row::Diff(left, right) => {
            Some((left, right))
        }
    }
}

// One more for each child that a row names.
fn count_children(times: &mut [u8; 127], table: &[i32], row: usize)
    requires in_table { InTable table.now row }
    requires sound_row { SoundRow table.now row }
    requires times_value { times.old ≡ times_to table.now row }
    requires row_bound { row < 127 }
    ensures { times.new ≡ times_to table.now (row + 1) }
{
    if let Some((left, right)) = children_of(table, row) {
        times[left] += 1;
        times[right] += 1;
    }
}

// How often each row is named as a child. The counts are lent: handed back by value they would lie on the stack twice.
fn child_times(times: &mut [u8; 127], table: &[i32], rows: usize)
    requires { SoundRows table.now rows }
    ensures { times.new ≡ times_to table.now rows }
{
    *times = [0; 127];
    for parent in 0..rows {
        count_children(times, table, parent);
    }
}

// Every row below `last` is a child once.
fn check_once(times: &[u8; 127], last: usize) -> Result<(), Refusal>
    requires { last ≤ 126 }
    ensures { result ≡ checked_by (rulings (once_rule times.now) 0 last) }
{
    for row in 0..last {
        crate::refuse_unless(times[row] == 1, Rule::Once, row)?;
    }
    Ok(())
}

fn check_children(table: &[i32], rows: usize) -> Result<(), Refusal>
    requires { SoundRows table.now rows }
    ensures { result ≡ checked_by (child_refusal table.now) }
{
    let mut times: [u8; 127] = [0; 127];
    child_times(&mut times, table, rows);
    check_once(&times, rows - 1)
}

// The whole check: the length, each row, then the children.
pub fn check(table: &[i32]) -> Result<(), Refusal>
    ensures { result ≡ checked_by (table_refusal table.now) }
{
    let words = table.len();
    let broken = (words % rules::ROW_WORDS != 0)
        | ((words == 0) | (rules::MOST_ROWS * rules::ROW_WORDS < words));
    crate::refuse_if(broken, Rule::Length, words)?;
    let rows = words / rules::ROW_WORDS;
    check_rows(table, rows)?;
    check_children(table, rows)
}

pub fn check_table(table: &[i32]) -> Result<(), Refusal>
    ensures { TableChecked table.now result }
{
    check(table)
}
