// C's answer: three numbers that tell the outcome of a call.

#![tactic(auto)]

ghost use Rattle.std.specs.Prelude.{◌≡◌};
ghost use Rattle.rules.specs.Told.{Tale, checked_tale, located_tale, searched_tale, wrote, told_by, told_searched, refused_by};
ghost use Rattle.answer_c.specs.Answers.{value_of, count_of, answer_of};

use rules::{Hit, Refusal, Searched};

// The refusal's number, 0 where nothing is refused; then its value, 1 for inside, the words or bytes written, or the position of the first inside
// sample; then the number of inside samples. What is not named is 0.
#[repr(C)]
#[derive(Clone, Copy)]
pub struct Answer {
    pub refusal: u64,
    pub value: u64,
    pub count: u64,
}

// The answer with these numbers.
fn numbers(refusal: u64, value: u64, count: u64) -> Answer
    ensures { result ≡ record { refusal = refusal; value = value; count = count } }
{
    Answer {
        refusal,
        value,
        count,
    }
}

// What a call answers where it refuses nothing, told in two numbers.
pub trait Outcome {
    ghost tale: { Self → Tale };

    fn value_and_count(self) -> (u64, u64)
        ensures value { result.0 ≡ value_of (tale self) }
        ensures count { result.1 ≡ count_of (tale self) };
}

// A table is sound.
impl Outcome for () {
    ghost tale = { checked_tale };

    fn value_and_count(self) -> (u64, u64) {
        (0, 0)
    }
}

// Whether a point is inside.
impl Outcome for bool {
    ghost tale = { located_tale };

    fn value_and_count(self) -> (u64, u64) {
        (u64::from(self), 0)
    }
}

// The search of a frame.
impl Outcome for Option<Hit> {
    ghost tale = { searched_tale };

    fn value_and_count(self) -> (u64, u64) {
        match self {
            Some(hit) => (hit.first as u64, hit.count as u64),
            None => (0, 0),
        }
    }
}

// The words or bytes that were written.
impl Outcome for usize {
    ghost tale = { wrote };

    fn value_and_count(self) -> (u64, u64) {
        (self as u64, 0)
    }
}

// The answer of a refusal: its number, and the value that goes with it.
pub fn refused(number: u64, value: u64) -> Answer
    ensures { result ≡ answer_of (refused_by number value) }
{
    numbers(number, value, 0)
}

// The answer that tells an outcome.
pub fn tell<T: Outcome>(outcome: Result<T, Refusal>) -> Answer
    ensures { result ≡ answer_of (told_by T.tale outcome) }
{
    match outcome {
        Ok(told) => {
            let (value, count) = told.value_and_count();
            numbers(0, value, count)
        }
        Err(refusal) => refused(refusal.rule.number(), refusal.value),
    }
}

// The answer of the search of a frame.
pub fn of_searched(searched: Searched) -> Answer
    ensures { result ≡ answer_of (told_searched searched) }
{
    match searched {
        Searched::Clear => tell(Ok(None::<Hit>)),
        Searched::Hit { first, count } => tell(Ok(Some(Hit { first, count }))),
        Searched::Refused(refusal) => refused(refusal.rule.number(), refusal.value),
    }
}
