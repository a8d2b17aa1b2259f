// Reading zone text, line by line into a table.

#![tactic(auto)]

ghost use Rattle.std.specs.Prelude.{◌≤◌, ◌≡◌, pos, length, replicate};
ghost use Rattle.std.proofs.Math.Option.{none};
ghost use Rattle.rules.specs.declared.Rule.TheVariants.{Text};
ghost use Rattle.rules.specs.Verdict.{table_refusal};
ghost use Rattle.rules.specs.Outcome.{over};
ghost use Rattle.rules.specs.TextCalls.{TextRead};
ghost use Rattle.piece.specs.Pieces.{RightCount};
ghost use Rattle.reading.specs.Reading.{Begun, FormRead, Given};

use rules::{Refusal, Rule};

// The first line at which a text breaks its form.
#[derive(Clone, Copy, Debug, PartialEq, Eq)]
pub struct FaultyLine(pub usize);

impl From<FaultyLine> for Refusal {
    ghost from_gives = { λ fault r. r ≡ record { rule = Text; value = fault.0 } };

    fn from(fault: FaultyLine) -> Self {
        Refusal::new(Rule::Text, fault.0)
    }
}

// The rows after the header, into a table of zeros: so many, if nothing follows the last one.
fn read_rows(text: &[u8], start: usize, table: &mut [i32], rows: usize) -> Result<usize, FaultyLine>
    requires right_count { RightCount rows }
    requires begun { Begun text.now rows start 0 table.old }
    ensures { FormRead text.now table.new result }
{
    let mut at = start;
    for row in 0..rows {
        let line = piece::read_line(text, at, &mut table[row * rules::ROW_WORDS..]);
        let Some(next) = line else {
            return Err(FaultyLine(row + 2));
        };
        at = next;
    }
    if at < text.len() {
        return Err(FaultyLine(rows + 2));
    }
    Ok(rows)
}

// The whole text, into a table of zeros: how many rows it spells.
fn read_form(text: &[u8], table: &mut [i32]) -> Result<usize, FaultyLine>
    requires { table.old ≡ replicate 1524 (pos 0) }
    ensures { FormRead text.now table.new result }
{
    let header = piece::read_header(text).ok_or(FaultyLine(1))?;
    read_rows(text, header.next, table, header.value)
}

// Puts words at the start of a table that has room for them.
fn copy(words: &[i32], table: &mut [i32])
    requires { length words.now ≤ length table.old }
    ensures { table.new ≡ over words.now table.old }
{
    for i in 0..words.len() {
        table[i] = words[i];
    }
}

// A table without a fault: the room, then the words.
fn give_sound(words: &[i32], table: &mut [i32]) -> Result<usize, Refusal>
    requires { table_refusal words.now ≡ none }
    ensures { Given words.now table.old table.new result }
{
    let needed = words.len();
    if table.len() < needed {
        return Err(Refusal::new(Rule::Room, needed));
    }
    copy(words, table);
    Ok(needed)
}

// The table that a text spells: its faults, then the room, then the words.
fn give(words: &[i32], table: &mut [i32]) -> Result<usize, Refusal>
    ensures { Given words.now table.old table.new result }
{
    table::check(words)?;
    give_sound(words, table)
}

// The text is read into 127 rows of its own first: the lent table stays as it was until nothing is left to refuse.
pub fn read_text(text: &[u8], table: &mut [i32]) -> Result<usize, Refusal>
    ensures { TextRead text.now table.old table.new result }
{
    if rules::MOST_BYTES < text.len() {
        return Err(Refusal::new(Rule::Text, 0));
    }
    let mut words: [i32; 1524] = [0; 1524];
    let rows = read_form(text, &mut words)?;
    give(&words[..rows * rules::ROW_WORDS], table)
}
