// The teaching program over the zones of its data/: those of the lessons, some at the bounds of what is told, and some that are refused. `explaining`
// tells a zone that it reads.
//
// What is told is data too. A line of data/lessons is one of these, and every other is said as it stands:
//     window XLO XHI YLO YHI ZLO ZHI     the window from here on; before the first it is the full range
//     show FILE                          says the text of a file
//     explain FILE                       tells the ways of the zone of a file

#![tactic(auto)]

use lines::{numbers, say_bytes, split_word, without_end};
use rules::Window;
use std::os::fd::AsRawFd;

// Says the text of a file.
fn show(rt: &HostRuntime, name: &[u8]) {
    let mut text: [u8; 4096] = [0; 4096];
    let size = lines::read_file(rt, name, &mut text);
    say_bytes(rt, &text[..size]);
}

// A file that is not there is told as an empty one.
fn explain(rt: &HostRuntime, name: &[u8], window: Window) {
    match lines::open(rt, name) {
        Some(file) => telling::tell_from(rt, file.as_raw_fd(), window),
        None => telling::tell_zone(rt, b"", window),
    }
}

// The file that a line names after its word, none if it has but a word.
fn file_of(rest: &[u8]) -> &[u8] {
    rest.strip_prefix(b" ").unwrap_or(b"")
}

// The window that a line gives; a bound that it lacks is 0.
fn window_of(rest: &[u8]) -> Window {
    let mut bounds: [i32; 6] = [0; 6];
    let _ = numbers::read_all(rest, &mut bounds);
    numbers::window_of(bounds)
}

// Does what a line says, in the window that stands now.
fn obey(rt: &HostRuntime, line: &[u8], window: &mut Window) {
    let (word, rest) = split_word(without_end(line));
    match word {
        b"window" => *window = window_of(rest),
        b"show" => show(rt, file_of(rest)),
        b"explain" => explain(rt, file_of(rest), *window),
        _ => say_bytes(rt, line),
    }
}

fn main(rt: HostRuntime) {
    let mut text: [u8; 4096] = [0; 4096];
    let size = lines::read_file(&rt, b"lessons", &mut text);
    let mut window = window::everywhere();
    for line in text[..size].split_inclusive(|b| *b == b'\n') {
        obey(&rt, line, &mut window);
    }
}
