// The numbers of a line, each with the space before it.
ghost use Rattle.std.specs.Prelude.{◌≡◌, ◌≤◌, length, IfOk, IfSome};

use crate::Fault;
use rules::Window;
use std::str;

// What can stand after a space of a line.
pub trait FromStart: Copy {
    // The value that a text begins with, and what follows it.
    fn from_start(text: &[u8]) -> Option<(Self, &[u8])>
        ensures { IfSome result (λ found. length found.1.now ≤ length text.now) };
}

// A number of the rules.
impl FromStart for i32 {
    fn from_start(text: &[u8]) -> Option<(i32, &[u8])> {
        let number = number::read_number(text, 0)?;
        Some((number.value, text.get(number.next..)?))
    }
}

// A word of a list: digits, as far as they go.
impl FromStart for u64 {
    fn from_start(text: &[u8]) -> Option<(u64, &[u8])> {
        let end = text.iter().position(|b| !b.is_ascii_digit());
        let (digits, rest) = text.split_at(end.unwrap_or(text.len()));
        let value = str::from_utf8(digits).ok()?.parse::<u64>().ok()?;
        Some((value, rest))
    }
}

// A number as a size, 0 for a negative one.
pub fn size_of(v: i32) -> usize {
    usize::try_from(v).unwrap_or(0)
}

// So many values, if nothing of their line is left.
fn ended(left: &[u8], count: usize) -> Result<usize, Fault>
    ensures { IfOk result (λ ended. ended ≡ count) }
{
    if left.is_empty() {
        Ok(count)
    } else {
        Err(Fault)
    }
}

// Writes the values of a line, each with a space before it, and answers how many there are. They are not right if there is no place for one.
pub fn read_all<T: FromStart>(rest: &[u8], into: &mut [T]) -> Result<usize, Fault>
    ensures { IfOk result (λ count. count ≤ length into.new) }
{
    let mut left = rest;
    for (count, place) in into.iter_mut().enumerate() {
        let [b' ', text @ ..] = left else {
            return ended(left, count);
        };
        let (value, after) = T::from_start(text).ok_or(Fault)?;
        *place = value;
        left = after;
    }
    ended(left, into.len())
}

// The numbers of a line, if they are just so many.
pub fn read_just<const N: usize>(rest: &[u8]) -> Result<[i32; N], Fault> {
    let mut numbers: [i32; N] = [0; N];
    if read_all(rest, &mut numbers)? == N {
        Ok(numbers)
    } else {
        Err(Fault)
    }
}

// Writes these codes, over and over, into all places, if each of them is one.
fn repeat(codes: &[i32], into: &mut [i16]) -> Result<(), Fault> {
    for (place, code) in into.iter_mut().zip(codes.iter().cycle()) {
        *place = i16::try_from(*code).map_err(|_| Fault)?;
    }
    Ok(())
}

// Writes the samples of a frame: their number is a line's first, and their codes are the others, over and over.
pub fn read_frame(rest: &[u8], into: &mut [i16]) -> Result<usize, Fault>
    ensures { IfOk result (λ count. count ≤ length into.new) }
{
    let mut numbers: [i32; 33] = [0; 33];
    let read = read_all(rest, &mut numbers)?;
    let [samples, codes @ ..] = &numbers[..read] else {
        return Err(Fault);
    };
    let count = size_of(*samples);
    if codes.is_empty() || into.len() < count {
        return Err(Fault);
    }
    repeat(codes, &mut into[..count])?;
    Ok(count)
}

// The window that a line's numbers give.
pub fn read_window(rest: &[u8]) -> Result<Window, Fault> {
    Ok(window_of(read_just(rest)?))
}

// The window of these bounds.
pub fn window_of([xlo, xhi, ylo, yhi, zlo, zhi]: [i32; 6]) -> Window {
    Window {
        xlo,
        xhi,
        ylo,
        yhi,
        zlo,
        zhi,
    }
}
