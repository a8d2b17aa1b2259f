// What an answer tells, after the name of what was asked.
use crate::say;
use rules::{Refusal, Searched};
use std::fmt::Display;

// What a buffer is filled with before the call; no list and no triple here has such a word.
pub const FILL: u32 = 777777;

// Says why a call did nothing.
pub fn refused(rt: &impl Print, refusal: Refusal) {
    say(
        rt,
        format_args!("refused\t{}\t{}", refusal.rule.number(), refusal.value),
    );
}

// Says what the check of a table answers.
pub fn checked(rt: &impl Print, answer: Result<(), Refusal>) {
    match answer {
        Ok(()) => say(rt, "sound"),
        Err(refusal) => refused(rt, refusal),
    }
}

// Says what a question about one point answers.
pub fn located(rt: &impl Print, answer: Result<bool, Refusal>) {
    match answer {
        Ok(true) => say(rt, "inside"),
        Ok(false) => say(rt, "outside"),
        Err(refusal) => refused(rt, refusal),
    }
}

// Says what the search of a frame answers.
pub fn searched(rt: &impl Print, answer: Searched) {
    match answer {
        Searched::Clear => say(rt, "clear"),
        Searched::Hit { first, count } => say(rt, format_args!("hit\t{first}\t{count}")),
        Searched::Refused(refusal) => refused(rt, refusal),
    }
}

// Says how a call that writes went, and answers how many words it wrote, none if it was refused.
pub fn written(rt: &impl Print, answer: Result<usize, Refusal>) -> usize {
    match answer {
        Ok(n) => {
            say(rt, format_args!("wrote\t{n}"));
            n
        }
        Err(refusal) => {
            refused(rt, refusal);
            0
        }
    }
}

// Says how many words from n on are as they were.
pub fn kept<T: PartialEq>(rt: &impl Print, words: &[T], n: usize, fill: &T) {
    let kept = words.iter().skip(n).filter(|word| *word == fill).count();
    say(rt, format_args!("\tkept\t{kept}"));
}

// Prints the first words of a buffer, and how many of the others are as they were.
pub fn buffer<T: Display + PartialEq>(rt: &impl Print, words: &[T], n: usize, fill: &T) {
    for word in words.iter().take(n) {
        say(rt, format_args!("\t{word}"));
    }
    kept(rt, words, n, fill);
}
