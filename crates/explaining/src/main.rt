// The teaching program: tells the ways of choosing of the zone text on standard input, what becomes of each in a window, and the list. The window's
// six bounds are its arguments; without arguments it is the full range.

#![tactic(auto)]

use lines::numbers::FromStart;
use rules::Window;
use std::env::{Env, FillError};

// The bound that an argument gives. One that is no number of 32 bits is none of its axis either, and 6 is refused for it.
fn bound(rt: &HostRuntime, i: usize) -> i32 {
    let mut word: [u8; 16] = [0; 16];
    // one that is missing, or longer than any such number, is read as an empty one
    let size = rt.arg(i, &mut word).unwrap_or(0);
    match i32::from_start(&word[..size]) {
        Some((value, [])) => value,
        _ => i32::MAX,
    }
}

fn has_arguments(rt: &HostRuntime) -> bool {
    let mut word: [u8; 16] = [0; 16];
    !matches!(rt.arg(1, &mut word), Err(FillError::NotPresent))
}

fn window_asked(rt: &HostRuntime) -> Window {
    if !has_arguments(rt) {
        return window::everywhere();
    }
    Window {
        xlo: bound(rt, 1),
        xhi: bound(rt, 2),
        ylo: bound(rt, 3),
        yhi: bound(rt, 4),
        zlo: bound(rt, 5),
        zhi: bound(rt, 6),
    }
}

fn main(rt: HostRuntime) {
    telling::tell_from(&rt, 0, window_asked(&rt));
}
