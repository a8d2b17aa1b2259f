// Lines of data for the programs. A line is a name and a tab, which it may lack, a word, and numbers with a space before each:
//     case 5, column 8<tab>tree_point 8 0 0
// An empty line, and one that begins with #, is for the reader.

#![tactic(auto)]

pub mod answers;
pub mod numbers;
pub mod rows;

ghost use Rattle.io.specs.Counts.{IsPrefixLen};

use std::fmt::Display;
use std::fs::File;
use std::os::fd::AsRawFd;
use std::str;

// A line says nothing, or says it of something that is not right.
#[derive(Clone, Copy, Debug, PartialEq, Eq)]
pub struct Fault;

// What a line is made of: its name with the tab, its word, and the numbers after the word, each with the space before it.
#[derive(Clone, Copy, Default)]
pub struct Line<'a> {
    pub name: &'a [u8],
    pub word: &'a [u8],
    pub rest: &'a [u8],
}

impl<'a> Line<'a> {
    // A line of a text, with or without its end. One that is for the reader has an empty word.
    pub fn read(line: &'a [u8]) -> Line<'a> {
        let line = without_end(line);
        if line.starts_with(b"#") {
            return Line::default();
        }
        let (name, said) = match line.iter().position(|b| *b == b'\t') {
            Some(tab) => line.split_at(tab + 1),
            None => line.split_at(0),
        };
        let (word, rest) = split_word(said);
        Line { name, word, rest }
    }
}

// A line without the byte that ends it, which the last one of a text may lack.
pub fn without_end(line: &[u8]) -> &[u8] {
    line.strip_suffix(b"\n").unwrap_or(line)
}

// The word that a text begins with, and what follows it, from the space on.
pub fn split_word(text: &[u8]) -> (&[u8], &[u8]) {
    let end = text.iter().position(|b| *b == b' ').unwrap_or(text.len());
    text.split_at(end)
}

// Prints; a write that fails is passed over.
pub fn say(rt: &impl Print, text: impl Display + Drop) {
    let _ = rt.print(text);
}

// Prints bytes that need not be text.
pub fn say_bytes(rt: &impl Print, bytes: &[u8]) {
    let _ = rt.write_all(bytes);
}

// Opens the file of this name, if there is one. A path is UTF-8 text.
pub fn open(rt: &HostRuntime, name: &[u8]) -> Option<File> {
    File::open(rt, str::from_utf8(name).ok()?).ok()
}

// Reads a file, or as much of it as there is room for, and answers how many bytes that is: none if there is no such file.
pub fn read_file(rt: &HostRuntime, name: &[u8], text: &mut [u8]) -> usize
    ensures { IsPrefixLen result text.new }
{
    match open(rt, name) {
        // std's read_exact fails where a file is shorter, and its read_to_end takes the heap
        Some(file) => io::read_full(file.as_raw_fd(), text),
        None => 0,
    }
}
