// Pictures, asked and told.
use crate::areas::{Area, FILL};
use lines::{answers, say};
use rules::{NO_FRAME, Rectangle};

// More than the largest picture.
pub const MOST: usize = 16400;

// The runs of a picture: how many equal words there are, and their frame.
fn tell_runs(rt: &impl Print, picture: &[i32]) {
    for run in picture.chunk_by(|frame, next| frame == next) {
        let length = run.len();
        match run {
            [NO_FRAME, ..] => say(rt, format_args!("\t{length} none")),
            [frame, ..] => say(rt, format_args!("\t{length} {frame}")),
            [] => {}
        }
    }
}

// Draws in the first words of a buffer, and tells how that went and what the buffer holds.
pub fn draw(rt: &impl Print, table: &[i32], list: &[u64], rectangle: Rectangle, area: Area<MOST>) {
    let mut words: [i32; MOST] = [FILL; MOST];
    let answer = zone::list_waterfall(table, list, rectangle, &mut words[..area.room]);
    let written = answers::written(rt, answer);
    let picture = &words[..area.of];
    tell_runs(rt, &picture[..written.min(picture.len())]);
    answers::kept(rt, picture, written, &FILL);
}
