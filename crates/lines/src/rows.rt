// A table, row by row:
//     row W W ..      a row more: its first words, the others are 0
//     words W W ..    these words more, a row or not
//     again R N       copies of the last R rows until there are N; what a row names is in its copy as many rows further on
ghost use Rattle.std.specs.Prelude.{◌*◌, ◌≤◌, ◌<◌, length};
ghost use Rattle.lines.specs.declared.rows.TheConstants.{MOST_WORDS};

use crate::numbers::{read_all, read_just, size_of};
use crate::{Fault, Line};
use rules::{MOST_ROWS, ROW_WORDS};

// The words of one row more than a table may have.
const MOST_WORDS: usize = (MOST_ROWS + 1) * ROW_WORDS;

// The rows that lines have given so far, at most one more than a table may have.
#[derive(Clone, Copy)]
pub struct Rows {
    words: [i32; MOST_WORDS],
    count: usize,
    ghost in_room: { count ≤ MOST_WORDS },
}

// A row that is named, so many rows further on.
fn further(v: i32, rows: usize) -> i32
    requires { rows ≤ 128 }
{
    let row = size_of(v);
    if 128 < row {
        return v;
    }
    (row + rows) as i32
}

// A word of a table, as the copy has it that stands so many rows further on: words 1 and 2 of an operation name rows.
fn copied(table: &[i32], at: usize, rows: usize) -> i32
    requires in_bounds { at < length table.now }
    requires few_rows { rows ≤ 128 }
{
    let place = at % ROW_WORDS;
    if matches!(place, 1 | 2) && 3 <= table[at - place] {
        further(table[at], rows)
    } else {
        table[at]
    }
}

// Copies the last rows into the words from one on up to another.
fn copy_rows(table: &mut [i32], from: usize, to: usize, rows: usize)
    requires rows_stand { ROW_WORDS * rows ≤ from }
    requires few_rows { rows ≤ 128 }
    requires in_bounds { to ≤ length table.old }
{
    for k in from..to {
        table[k] = copied(table, k - ROW_WORDS * rows, rows);
    }
}

impl Rows {
    // No row.
    pub fn new() -> Rows {
        Rows {
            words: [0; MOST_WORDS],
            count: 0,
        }
    }

    // The words so far.
    pub fn table(&self) -> &[i32] {
        &self.words[..self.count]
    }

    fn add_row(&mut self, rest: &[u8]) -> Result<(), Fault> {
        let start = self.count;
        let end = start + ROW_WORDS;
        if MOST_WORDS < end {
            return Err(Fault);
        }
        read_all(rest, &mut self.words[start..end])?;
        self.count = end;
        Ok(())
    }

    fn add_words(&mut self, rest: &[u8]) -> Result<(), Fault> {
        let start = self.count;
        let more = read_all(rest, &mut self.words[start..])?;
        self.count = start + more;
        Ok(())
    }

    fn add_copies(&mut self, rest: &[u8]) -> Result<(), Fault> {
        let [rows, all]: [i32; 2] = read_just(rest)?;
        let rows = size_of(rows);
        let all = size_of(all);
        let count = self.count;
        if rows == 0 || count / ROW_WORDS < rows || MOST_ROWS + 1 < all || all * ROW_WORDS < count {
            return Err(Fault);
        }
        let end = all * ROW_WORDS;
        copy_rows(&mut self.words, count, end, rows);
        self.count = end;
        Ok(())
    }

    // Adds what a line adds to a table, if it does.
    pub fn add(&mut self, line: Line<'_>) -> Result<(), Fault> {
        match line.word {
            b"row" => self.add_row(line.rest),
            b"words" => self.add_words(line.rest),
            b"again" => self.add_copies(line.rest),
            _ => Ok(()),
        }
    }

    // Adds what the lines of a text add.
    pub fn add_all(&mut self, text: &[u8]) -> Result<(), Fault> {
        for line in text.split_inclusive(|b| *b == b'\n') {
            self.add(Line::read(line))?;
        }
        Ok(())
    }
}
