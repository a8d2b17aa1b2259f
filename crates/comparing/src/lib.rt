// A list held against its tree, at every point of the columns, codes and frames that are set.

#![tactic(auto)]

ghost use Rattle.std.specs.Prelude.{◌≤◌, length};

use lines::{Fault, answers, numbers, say};
use rules::{Point, Refusal, Rule, Window};
use std::fmt;

// What is found at a point: list and tree say the same, or the list refuses a point that is out of its window, or else they disagree.
#[derive(Clone, Copy, Debug, PartialEq, Eq)]
enum Finding {
    Outside,
    Inside,
    OutByColumn,
    OutByCode,
    OutByFrame,
    Disagree,
}

// How often each finding was made; a count that is the greatest stays.
#[derive(Clone, Copy, Default)]
struct Counts {
    outside: u64,
    inside: u64,
    out_by_column: u64,
    out_by_code: u64,
    out_by_frame: u64,
    disagree: u64,
}

impl Counts {
    fn add(&mut self, finding: Finding) {
        let count = match finding {
            Finding::Outside => &mut self.outside,
            Finding::Inside => &mut self.inside,
            Finding::OutByColumn => &mut self.out_by_column,
            Finding::OutByCode => &mut self.out_by_code,
            Finding::OutByFrame => &mut self.out_by_frame,
            Finding::Disagree => &mut self.disagree,
        };
        *count = count.saturating_add(1);
    }
}

impl fmt::Display for Counts {
    fn fmt<W: fmt::Write>(&self, f: &mut fmt::Formatter<W>) -> fmt::Result {
        let Counts {
            outside,
            inside,
            out_by_column,
            out_by_code,
            out_by_frame,
            disagree,
        } = *self;
        write!(
            f,
            "\t{outside}\t{inside}\t{out_by_column}\t{out_by_code}\t{out_by_frame}\t{disagree}"
        )
    }
}

// Something of each axis: the coordinates that are set, or the line that sets them, from its word on.
#[derive(Clone, Copy, Default)]
pub struct Axes<'a, T> {
    pub columns: &'a [T],
    pub codes: &'a [T],
    pub frames: &'a [T],
}

// A list and the table of the zone that it is of.
#[derive(Clone, Copy)]
struct Pair<'a> {
    table: &'a [i32],
    list: &'a [u64],
}

// What a refusal says: the axis on which a point is out of the window, where it is refused for that.
fn refusal_told(refusal: Refusal) -> Finding {
    match (refusal.rule, refusal.value) {
        (Rule::Outside, 0) => Finding::OutByColumn,
        (Rule::Outside, 1) => Finding::OutByCode,
        (Rule::Outside, 2) => Finding::OutByFrame,
        _ => Finding::Disagree,
    }
}

// What an answer about a point says.
fn told(answer: Result<bool, Refusal>) -> Finding {
    match answer {
        Ok(false) => Finding::Outside,
        Ok(true) => Finding::Inside,
        Err(refusal) => refusal_told(refusal),
    }
}

// What is found at a point. The tree has to answer; the list may refuse a point that is out of its window.
fn find(pair: Pair<'_>, point: Point) -> Finding {
    let by_list = told(zone::list_point(pair.table, pair.list, point));
    let by_tree = told(zone::tree_point(pair.table, point));
    match (by_tree, by_list) {
        (Finding::Outside, Finding::Inside) | (Finding::Inside, Finding::Outside) =>
            Finding::Disagree,
        (Finding::Outside | Finding::Inside, found) => found,
        _ => Finding::Disagree,
    }
}

// Asks at each column, at one code of one frame.
fn ask_columns(pair: Pair<'_>, columns: &[i32], code: i32, frame: i32, counts: &mut Counts) {
    for column in columns {
        let point = Point {
            x: *column,
            y: code,
            z: frame,
        };
        counts.add(find(pair, point));
    }
}

// Asks at each column and code of one frame.
fn ask_codes(pair: Pair<'_>, axes: Axes<'_, i32>, frame: i32, counts: &mut Counts) {
    for code in axes.codes {
        ask_columns(pair, axes.columns, *code, frame, counts);
    }
}

// Asks at each point.
fn ask_all(pair: Pair<'_>, axes: Axes<'_, i32>) -> Counts {
    let mut counts = Counts::default();
    for frame in axes.frames {
        ask_codes(pair, axes, *frame, &mut counts);
    }
    counts
}

// Makes the list of a window and compares it, or tells why there is none.
fn compare_list(rt: &impl Print, table: &[i32], window: Window, axes: Axes<'_, i32>) {
    // room for 12 products: a zone that has more is told as refused
    let mut list: [u64; 32] = [0; 32];
    match zone::make_list(table, window, &mut list) {
        Ok(_) => {
            let products = list[0];
            let counts = ask_all(Pair { table, list: &list }, axes);
            say(rt, format_args!("{products}{counts}"));
        }
        Err(refusal) => answers::refused(rt, refusal),
    }
}

// Reads the coordinates of a line, and answers how many there are: none if the line is not right.
fn read_axis(rest: &[u8], into: &mut [i32]) -> usize
    ensures { result ≤ length into.new }
{
    numbers::read_all(rest, into).unwrap_or(0)
}

// Compares a window's list at the coordinates that are set. It is not right if an axis has none, and is told all the same.
pub fn compare(
    rt: &impl Print,
    table: &[i32],
    window: Window,
    lines: Axes<'_, u8>,
) -> Result<(), Fault> {
    let mut columns: [i32; 64] = [0; 64];
    let mut codes: [i32; 64] = [0; 64];
    let mut frames: [i32; 64] = [0; 64];
    let column_count = read_axis(lines.columns, &mut columns);
    let code_count = read_axis(lines.codes, &mut codes);
    let frame_count = read_axis(lines.frames, &mut frames);
    let axes = Axes {
        columns: &columns[..column_count],
        codes: &codes[..code_count],
        frames: &frames[..frame_count],
    };
    compare_list(rt, table, window, axes);
    if column_count == 0 || code_count == 0 || frame_count == 0 {
        Err(Fault)
    } else {
        Ok(())
    }
}
