// Numbers as text: writing one into a lent buffer, and reading the one that stands at a position of a text.

#![tactic(auto)]

ghost use Rattle.std.specs.Prelude.{◌+◌, ◌-◌, ◌^◌, ◌≤◌, ◌<◌, true, ◌≡◌, Decides, SomeIff, FitsSigned, length, drop};
ghost use Rattle.std.specs.Char.{is_ascii_digit};
ghost use Rattle.std.specs.Int.{w32};
ghost use Rattle.rules.specs.Text.{number_text};
ghost use Rattle.rules.specs.Listing.{word_text};
ghost use Rattle.number.specs.Writing.{Put};
ghost use Rattle.number.specs.Reading.{ReadsNumber, grown, scanned, with_sign, Confirmed};

// What was read at a position of a text, and the position after it.
#[derive(Clone, Copy, Debug, PartialEq, Eq)]
pub struct Found<T> {
    pub value: T,
    pub next: usize,
}

// How many digits a number has. With `ilog10` a text takes a fifth longer to write.
pub fn decimal_length(n: u64) -> usize
    ensures { result ≡ length (word_text n) }
{
    let mut digits: usize = 1;
    let mut left = n;
    while 10 <= left {
        left /= 10;
        digits += 1;
    }
    digits
}

// How many bytes a number's text has.
pub fn number_length(v: i32) -> usize
    ensures { result ≡ length (number_text v) }
{
    decimal_length(u64::from(v.unsigned_abs())) + usize::from(v < 0)
}

// Copies bytes into a text, and answers the position after them. A position goes in and comes back: a struct that held it would hold the lent text too,
// and be lent again at each call. With `copy_from_slice` a text takes a fourth longer to write, since what is copied is short.
pub fn put_bytes(text: &mut [u8], at: usize, bytes: &[u8]) -> usize
    requires { at + length bytes.now ≤ length text.old }
    ensures { Put text.old at bytes.now text.new result }
{
    for i in 0..bytes.len() {
        text[at + i] = bytes[i];
    }
    at + bytes.len()
}

// The power of ten that a number's first digit stands for: the highest that is not above the number, or 1 for 0. It is held against a tenth of the
// number, since ten times the power may be past 64 bits. By `ilog10` and `pow` a number of three digits takes a fifth longer to write.
fn highest_power(n: u64) -> u64
    ensures { result ≡ 10 ^ (length (word_text n) - 1) }
{
    let mut power: u64 = 1;
    while power <= n / 10 {
        power *= 10;
    }
    power
}

// Writes a number without a sign, from the digit of its highest power of ten down, and answers the position after it. The last digit is what is then
// left, which spares a division. The power ends the loop: with a `for` over the digits, each with its `pow`, it takes a fifth longer.
pub fn put_decimal(text: &mut [u8], at: usize, n: u64) -> usize
    requires { at + length (word_text n) ≤ length text.old }
    ensures { Put text.old at (word_text n) text.new result }
{
    let mut power = highest_power(n);
    let mut left = n;
    let mut i = 0;
    while 1 < power {
        text[at + i] = b'0' + ((left / power) as u8);
        left %= power;
        power /= 10;
        i += 1;
    }
    text[at + i] = b'0' + (left as u8);
    at + i + 1
}

// Writes a number, with a minus before a negative, and answers the position after it.
pub fn put_number(text: &mut [u8], at: usize, v: i32) -> usize
    requires { at + length (number_text v) ≤ length text.old }
    ensures { Put text.old at (number_text v) text.new result }
{
    let n = u64::from(v.unsigned_abs());
    if v < 0 {
        text[at] = b'-';
        return put_decimal(text, at + 1, n);
    }
    put_decimal(text, at, n)
}

// What digits are worth with one more. What has ten digits stays as it is: a longer run is no 32-bit number.
fn grow(v: u64, b: u8) -> u64
    requires { (v < 10000000000) × (is_ascii_digit b ≡ true) }
    ensures { (result ≡ grown v b) × (result < 10000000000) }
{
    if v < 1000000000 {
        return v * 10 + u64::from(b - b'0');
    }
    v
}

// What the digits that stand at a position are worth.
fn read_digits(text: &[u8], at: usize) -> Found<u64>
    requires { at ≤ length text.now }
    ensures { result ≡ scanned 0 at (drop at text.now) }
{
    let mut value: u64 = 0;
    for next in at..text.len() {
        let b = text[next];
        if !b.is_ascii_digit() {
            return Found { value, next };
        }
        value = grow(value, b);
    }
    Found {
        value,
        next: text.len(),
    }
}

// The number of a sign and a magnitude, if 32 bits hold it.
fn signed(minus: bool, n: u64) -> Option<i32>
    ensures { SomeIff result (FitsSigned w32 (with_sign minus n)) (with_sign minus n) }
{
    let value = i64::try_from(n).ok()?;
    i32::try_from(if minus { -value } else { value }).ok()
}

// Whether bytes are the same, one by one. By `==`, which reads four at once that were just put one by one, a text takes a twentieth longer to read.
fn same(a: &[u8], b: &[u8]) -> bool
    ensures { Decides result (a.now ≡ b.now) }
{
    a.len() == b.len() && a.iter().zip(b).all(|(x, y)| x == y)
}

// The guess, if the text up to `next` is its own: so no leading zero, no spare sign, no digit too many gets through.
fn confirm(text: &[u8], at: usize, next: usize, value: i32) -> Option<Found<i32>>
    requires { (at ≤ next) × (next ≤ length text.now) }
    ensures { Confirmed text.now at next value result }
{
    let mut own: [u8; 11] = [0; 11];
    let size = put_number(&mut own, 0, value);
    let right = same(&text[at..next], &own[..size]);
    right.then_some(Found { value, next })
}

// The number that stands at a position and ends before the next byte that is no digit: guessed from its digits, then confirmed.
pub fn read_number(text: &[u8], at: usize) -> Option<Found<i32>>
    ensures { ReadsNumber text.now at result }
{
    let minus = *text.get(at)? == b'-';
    let digits = read_digits(text, at + usize::from(minus));
    let value = signed(minus, digits.value)?;
    confirm(text, at, digits.next, value)
}
