// Questions as data: what is asked through the public calls, and what the answers tell, a line for each.
//
// A line (the crate `lines` says how one is written) sets what is asked, or asks by the name of a call:
//     zone                 a table without rows; row, words and again add to it (lines::rows)
//     list W W ..          a list of these words
//     frame N C C ..       a frame of N samples with these codes, over and over
//     window XLO XHI YLO YHI ZLO ZHI
//     columns X X ..       codes Y Y ..         frames Z Z ..
//     check_table          tree_point X Y Z     tree_search FIRST FRAME
//     make_list ROOM OF    list_point X Y Z     list_search FIRST FRAME
//     list_search_frames FRAMES FIRST FRAME ROOM OF
//     list_waterfall XLO XHI YLO YHI ROOM OF
//     rewrite_tree ROOM OF WORK_ROOM WORK_OF
//     write_text ROOM OF
//     compare XLO XHI YLO YHI ZLO ZHI
// The name of a line that asks is printed before its answer. make_list, list_search_frames and list_waterfall are lent the first ROOM of OF words, all
// filled; the words written are printed, and how many of the others are as they were. list_search_frames takes the codes of `frame` for so many frames
// end to end. Of a picture each run of equal words is printed: how many there are, and the frame, or `none`.
// rewrite_tree is lent two such areas, for the tree and for its work. Each row of the tree is printed, or only the last one where there are over 20; of
// the work area, how many words are 0, and how many are as they were.
// write_text is lent the first ROOM of OF bytes, all dots, and the whole buffer is shown as it then is.
// compare makes the list of its own window and asks it and the tree at every point of the columns, codes and frames; it prints how many products there
// are, and how often each finding (comparing) is made. A line that is none of these, or has other numbers, or asks of what has, is told and ends the
// run.

#![tactic(auto)]

mod areas;
mod asking;
mod pictures;
mod rewriting;

use comparing::Axes;
use lines::rows::Rows;
use lines::{Fault, Line, say, say_bytes};

// What the lines have set so far: what follows the word of the last line with it, of a zone its place in the text, since the lines after it are read too.
#[derive(Clone, Copy, Default)]
struct Held<'a> {
    zone: Option<usize>,
    list: &'a [u8],
    frame: &'a [u8],
    window: &'a [u8],
    axes: Axes<'a, u8>,
}

impl Held<'_> {
    // The zone, from what follows its word to the end of a text; nothing before the first zone.
    fn zone_in<'t>(&self, text: &'t [u8]) -> &'t [u8] {
        self.zone.and_then(|start| text.get(start..)).unwrap_or(b"")
    }
}

// Asks what a line asks, after its name, and ends the line.
fn ask(rt: &impl Print, held: &Held<'_>, table: &[i32], line: Line<'_>) -> Result<(), Fault> {
    say_bytes(rt, line.name);
    let asked = asking::ask(rt, held, table, line);
    say(rt, "\n");
    asked
}

// Does what the line says that ends a text: it sets something, or asks. What follows the word `zone` may hold a row, after a tab: it is read with the line
// after it.
fn obey<'a>(
    rt: &impl Print,
    held: &mut Held<'a>,
    text: &[u8],
    line: Line<'a>,
) -> Result<(), Fault> {
    if line.word == b"zone".as_slice() {
        held.zone = text.len().checked_sub(line.rest.len());
        return Ok(());
    }
    let mut rows = Rows::new();
    rows.add_all(held.zone_in(text))?;
    match line.word {
        b"" | b"row" | b"words" | b"again" => {}
        b"list" => held.list = line.rest,
        b"frame" => held.frame = line.rest,
        b"window" => held.window = line.rest,
        b"columns" => held.axes.columns = line.rest,
        b"codes" => held.axes.codes = line.rest,
        b"frames" => held.axes.frames = line.rest,
        _ => ask(rt, held, rows.table(), line)?,
    }
    Ok(())
}

// Obeys every line, up to the first that says nothing, or says it of something that is not right.
fn obey_all(rt: &HostRuntime, text: &[u8]) {
    let mut held = Held::default();
    let mut end: usize = 0;
    for (i, line) in text.split_inclusive(|b| *b == b'\n').enumerate() {
        end += line.len();
        let so_far = lines::without_end(&text[..end]);
        if obey(rt, &mut held, so_far, Line::read(line)).is_err() {
            let number = i + 1;
            say(
                rt,
                format_args!(
                    "line {number} of the data is not right, or what it is about is not\n"
                ),
            );
            return;
        }
    }
}

// Answers every line of a file.
pub fn answer_file(rt: &HostRuntime, name: &[u8]) {
    let mut text: [u8; 65536] = [0; 65536];
    let size = lines::read_file(rt, name, &mut text);
    obey_all(rt, &text[..size]);
}
