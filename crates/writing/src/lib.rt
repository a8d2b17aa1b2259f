// Writing the text of a table. How many bytes it takes is counted first, so that nothing is written where there is no room. What puts bytes into
// the text puts them at a position, and answers the position after them.

#![tactic(auto)]

ghost use Rattle.std.specs.Prelude.{◌+◌, ◌≤◌, ◌≡◌, length};
ghost use Rattle.std.proofs.Math.Option.{none};
ghost use Rattle.rules.specs.Kinds.{named_words};
ghost use Rattle.rules.specs.Table.{most_rows, row_count};
ghost use Rattle.rules.specs.Text.{header_line, field_text};
ghost use Rattle.rules.specs.TextCalls.{table_text, TextWritten};
ghost use Rattle.rules.specs.Verdict.{table_refusal};
ghost use Rattle.number.specs.Writing.{Put};
ghost use Rattle.table.specs.Reading.{InTable};
ghost use Rattle.writing.specs.Writing.{fields_to, line_as, line_at, lines_to};

use rules::{Kind, Refusal, Rule};

// A tab, and a number.
fn put_field(text: &mut [u8], at: usize, v: i32) -> usize
    requires { at + length (field_text v) ≤ length text.old }
    ensures { Put text.old at (field_text v) text.new result }
{
    text[at] = b'\t';
    number::put_number(text, at + 1, v)
}

// How many bytes the fields of a row have.
fn fields_length(table: &[i32], row: usize, kind: Kind) -> usize
    requires { InTable table.now row }
    ensures { result ≡ length (fields_to table.now row (named_words kind)) }
{
    let words = kind.named_words();
    let mut size = 0;
    for k in 0..words {
        size += 1 + number::number_length(table::word(table, row, k + 1));
    }
    size
}

fn put_fields(text: &mut [u8], at: usize, table: &[i32], row: usize, kind: Kind) -> usize
    requires in_table { InTable table.now row }
    requires room { at + length (fields_to table.now row (named_words kind)) ≤ length text.old }
    ensures { Put text.old at (fields_to table.now row (named_words kind)) text.new result }
{
    let words = kind.named_words();
    let mut next = at;
    for k in 0..words {
        next = put_field(text, next, table::word(table, row, k + 1));
    }
    next
}

// How many bytes the line of a row has: its name, its fields and the line feed. A row of unknown kind, which no sound table has, has no line.
fn row_length(table: &[i32], row: usize) -> usize
    requires { InTable table.now row }
    ensures { result ≡ length (line_at table.now row) }
{
    match Kind::try_from(table::word(table, row, 0)) {
        Ok(kind) => piece::kind_name(kind).len() + fields_length(table, row, kind) + 1,
        Err(_) => 0,
    }
}

// The line of a row of that kind.
fn put_line(text: &mut [u8], at: usize, table: &[i32], row: usize, kind: Kind) -> usize
    requires in_table { InTable table.now row }
    requires room { at + length (line_as table.now row kind) ≤ length text.old }
    ensures { Put text.old at (line_as table.now row kind) text.new result }
{
    let name = number::put_bytes(text, at, piece::kind_name(kind));
    let fields = put_fields(text, name, table, row, kind);
    number::put_bytes(text, fields, b"\n")
}

fn put_row(text: &mut [u8], at: usize, table: &[i32], row: usize) -> usize
    requires in_table { InTable table.now row }
    requires room { at + length (line_at table.now row) ≤ length text.old }
    ensures { Put text.old at (line_at table.now row) text.new result }
{
    match Kind::try_from(table::word(table, row, 0)) {
        Ok(kind) => put_line(text, at, table, row, kind),
        Err(_) => at,
    }
}

// How many bytes the lines of a sound table's rows have.
fn rows_length(table: &[i32], rows: usize) -> usize
    requires { (table_refusal table.now ≡ none) × (rows ≡ row_count table.now) }
    ensures { result ≡ length (lines_to table.now rows) }
{
    let mut size = 0;
    for row in 0..rows {
        size += row_length(table, row);
    }
    size
}

fn put_rows(text: &mut [u8], at: usize, table: &[i32], rows: usize) -> usize
    requires all_rows { (table_refusal table.now ≡ none) × (rows ≡ row_count table.now) }
    requires room { at + length (lines_to table.now rows) ≤ length text.old }
    ensures { Put text.old at (lines_to table.now rows) text.new result }
{
    let mut next = at;
    for row in 0..rows {
        next = put_row(text, next, table, row);
    }
    next
}

// The first line: the name, a tab, the number of rows and the line feed.
fn put_header(text: &mut [u8], rows: usize) -> usize
    requires rows_le_most_rows { rows ≤ most_rows }
    requires room { length (header_line rows) ≤ length text.old }
    ensures { Put text.old 0 (header_line rows) text.new result }
{
    let name = number::put_bytes(text, 0, b"zone\t");
    let count = number::put_decimal(text, name, rows as u64);
    number::put_bytes(text, count, b"\n")
}

// How many bytes the text of a sound table has; a header has 6 besides its number.
fn text_length(table: &[i32]) -> usize
    requires { table_refusal table.now ≡ none }
    ensures { result ≡ length (table_text table.now) }
{
    let rows = table.len() / rules::ROW_WORDS;
    6 + number::decimal_length(rows as u64) + rows_length(table, rows)
}

fn put_text(text: &mut [u8], table: &[i32]) -> usize
    requires sound { table_refusal table.now ≡ none }
    requires room { length (table_text table.now) ≤ length text.old }
    ensures { Put text.old 0 (table_text table.now) text.new result }
{
    let rows = table.len() / rules::ROW_WORDS;
    let header = put_header(text, rows);
    put_rows(text, header, table, rows)
}

// The table is sound: the room, then the text.
fn write_sound(table: &[i32], text: &mut [u8]) -> Result<usize, Refusal>
    requires { table_refusal table.now ≡ none }
    ensures { TextWritten table.now text.old text.new result }
{
    let needed = text_length(table);
    if text.len() < needed {
        return Err(Refusal::new(Rule::Room, needed));
    }
    Ok(put_text(text, table))
}

pub fn write_text(table: &[i32], text: &mut [u8]) -> Result<usize, Refusal>
    ensures { TextWritten table.now text.old text.new result }
{
    table::check(table)?;
    write_sound(table, text)
}
