// Rewritten trees, asked and told.
use crate::areas::{Area, FILL};
use lines::{answers, say};

// More than either area needs.
pub const MOST: usize = 24600;

// A tree of at most so many words is told row by row.
const WHOLE: usize = 60;

// The tree in the first words of an area: a tab stands before a row, and a space between its words. In a long one two dots stand for every row but the
// last.
fn tell_tree(rt: &impl Print, area: &[i32], written: usize) {
    let from = if written <= WHOLE { 0 } else { written - 3 };
    if from != 0 {
        say(rt, "\t..");
    }
    for (i, word) in area.iter().enumerate().take(written).skip(from) {
        let gap = if i % 3 == 0 { '\t' } else { ' ' };
        say(rt, format_args!("{gap}{word}"));
    }
}

// Rewrites into the first words of one area by the first words of another, and tells how that went and what both hold: of the second, how many words
// are 0, and how many are as they were.
pub fn rewrite(rt: &impl Print, table: &[i32], tree: Area<MOST>, work: Area<MOST>) {
    let mut tree_words: [i32; MOST] = [FILL; MOST];
    let mut work_words: [i32; MOST] = [FILL; MOST];
    let answer = zone::rewrite_tree(
        table,
        &mut tree_words[..tree.room],
        &mut work_words[..work.room],
    );
    let written = answers::written(rt, answer);
    let told = &tree_words[..tree.of];
    tell_tree(rt, told, written);
    answers::kept(rt, told, written, &FILL);
    let left = &work_words[..work.of];
    let zeros = left.iter().filter(|word| **word == 0).count();
    say(rt, format_args!("\twork\tzero\t{zeros}"));
    answers::kept(rt, left, 0, &FILL);
}
