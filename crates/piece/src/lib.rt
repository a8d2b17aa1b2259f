// Pieces of zone text, up to a line. Each piece is looked for at a position and tells, if it stands there, where it ends.

#![tactic(auto)]

ghost use Rattle.std.specs.Prelude.{◌≤◌, ◌≡◌, length};
ghost use Rattle.rules.specs.Text.{kind_name};
ghost use Rattle.piece.specs.Pieces.{ReadsBytes, TriesName, ReadsName, ReadsField, ReadsFields, ReadsLine, ReadsCount, ReadsHeader};

use number::Found;
use rules::Kind;

// The name that zone text has for a kind.
pub fn kind_name(kind: Kind) -> &'static [u8]
    ensures { result.now ≡ kind_name kind }
{
    match kind {
        Kind::Box => b"box",
        Kind::Wedge => b"wedge",
        Kind::Drum => b"drum",
        Kind::Union => b"union",
        Kind::Inter => b"inter",
        Kind::Diff => b"diff",
        Kind::Triangle => b"tri",
    }
}

// The position after bytes that are given. With `starts_with` a text takes a fifteenth longer to read.
fn read_bytes(text: &[u8], at: usize, bytes: &[u8]) -> Option<usize>
    requires { at ≤ length text.now }
    ensures { ReadsBytes bytes.now text.now at result }
{
    if text.len() - at < bytes.len() {
        return None;
    }
    let next = at + bytes.len();
    let right = &text[at..next] == bytes;
    right.then_some(next)
}

// One kind, if it is named.
fn try_name(text: &[u8], at: usize, kind: Kind) -> Option<Found<Kind>>
    requires { at ≤ length text.now }
    ensures { TriesName text.now at kind result }
{
    let next = read_bytes(text, at, kind_name(kind))?;
    Some(Found { value: kind, next })
}

// The kind that is named. No name begins another, so at most one stands there. By a loop over the kinds a text takes a fifteenth longer to read.
fn read_name(text: &[u8], at: usize) -> Option<Found<Kind>>
    requires { at ≤ length text.now }
    ensures { ReadsName text.now at result }
{
    if let Some(found) = try_name(text, at, Kind::Box) {
        return Some(found);
    }
    if let Some(found) = try_name(text, at, Kind::Wedge) {
        return Some(found);
    }
    if let Some(found) = try_name(text, at, Kind::Drum) {
        return Some(found);
    }
    if let Some(found) = try_name(text, at, Kind::Union) {
        return Some(found);
    }
    if let Some(found) = try_name(text, at, Kind::Inter) {
        return Some(found);
    }
    if let Some(found) = try_name(text, at, Kind::Diff) {
        return Some(found);
    }
    try_name(text, at, Kind::Triangle)
}

// A tab and the number after it.
fn read_field(text: &[u8], at: usize) -> Option<Found<i32>>
    requires { at ≤ length text.now }
    ensures { ReadsField text.now at result }
{
    let tab = read_bytes(text, at, b"\t")?;
    number::read_number(text, tab)
}

// As many fields as there are places, whose numbers go into these; the position after them.
fn read_fields(text: &[u8], at: usize, places: &mut [i32]) -> Option<usize>
    requires { at ≤ length text.now }
    ensures { ReadsFields text.now at places.new result }
{
    let mut next = at;
    for place in places.iter_mut() {
        let field = read_field(text, next)?;
        *place = field.value;
        next = field.next;
    }
    Some(next)
}

// The position after the line of a row, whose words go to the start of a table. Spare words stay as they are.
pub fn read_line(text: &[u8], at: usize, table: &mut [i32]) -> Option<usize>
    requires at_in_bounds { at ≤ length text.now }
    requires room { 12 ≤ length table.old }
    ensures { ReadsLine text.now at table.old table.new result }
{
    let name = read_name(text, at)?;
    let named = name.value.named_words();
    table[0] = name.value.number();
    let fields = read_fields(text, name.next, &mut table[1..1 + named])?;
    read_bytes(text, fields, b"\n")
}

// A tab and a row count.
fn read_count(text: &[u8], at: usize) -> Option<Found<usize>>
    requires { at ≤ length text.now }
    ensures { ReadsCount text.now at result }
{
    let field = read_field(text, at)?;
    let rows = usize::try_from(field.value).ok()?;
    if rows == 0 || rules::MOST_ROWS < rows {
        return None;
    }
    Some(Found {
        value: rows,
        next: field.next,
    })
}

// The number of rows that the first line tells.
pub fn read_header(text: &[u8]) -> Option<Found<usize>>
    ensures { ReadsHeader text.now result }
{
    let zone = read_bytes(text, 0, b"zone")?;
    let count = read_count(text, zone)?;
    let next = read_bytes(text, count.next, b"\n")?;
    Some(Found { next, ..count })
}
