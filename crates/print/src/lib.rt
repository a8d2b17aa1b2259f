// What the listing program prints, put into a buffer: the lines of a list, or the line of a refusal.

#![tactic(auto)]

ghost use Rattle.std.specs.Prelude.{◌+◌, ◌*◌, ◌≤◌, [], ◌∷◌, ◌++◌, length};
ghost use Rattle.rules.specs.ListWords.{product_count, place_of, products_in};
ghost use Rattle.rules.specs.Listing.{word_text, list_lines, refusal_line};
ghost use Rattle.number.specs.Writing.{Put};
ghost use Rattle.print.specs.Lines.{pair_text, lines_to};

use rules::Refusal;

// Writes a word and the byte after it, and answers the position after both.
fn put_word(out: &mut [u8], at: usize, n: u64, last: u8) -> usize
    requires { at + 21 ≤ length out.old }
    ensures { Put out.old at (word_text n ++ (last ∷ [])) out.new result }
{
    let next = number::put_decimal(out, at, n);
    out[next] = last;
    next + 1
}

// Writes two words at a line's end.
fn put_pair(out: &mut [u8], at: usize, first: u64, second: u64) -> usize
    requires { at + 42 ≤ length out.old }
    ensures { Put out.old at (pair_text first second) out.new result }
{
    let next = put_word(out, at, first, b'\t');
    put_word(out, next, second, b'\n')
}

// Writes the lines of a list's first products.
fn put_products(out: &mut [u8], at: usize, list: &[u64], count: usize) -> usize
    requires listed { place_of count ≤ length list.now }
    requires room { at + 42 * count ≤ length out.old }
    ensures { Put out.old at (lines_to list.now count) out.new result }
{
    let mut next = at;
    for k in 0..count {
        let c = layout::product_at(list, k);
        next = put_pair(out, next, c.plain, c.cuts);
    }
    next
}

// Writes the lines of a list: the number of its products, and each of them.
pub fn put_list(out: &mut [u8], list: &[u64]) -> usize
    requires list_in_bounds { (place_of (product_count list.now) ≤ length list.now) × (product_count list.now ≤ 4092) }
    requires in_bounds { 171890 ≤ length out.old }
    ensures { Put out.old 0 (list_lines (products_in list.now)) out.new result }
{
    let count = list[0];
    let named = number::put_bytes(out, 0, b"list\t");
    let next = put_word(out, named, count, b'\n');
    put_products(out, next, list, count as usize)
}

// Writes a refusal's line.
pub fn put_refusal(out: &mut [u8], r: Refusal) -> usize
    requires { 50 ≤ length out.old }
    ensures { Put out.old 0 (refusal_line r) out.new result }
{
    let named = number::put_bytes(out, 0, b"refused\t");
    put_pair(out, named, r.rule.number(), r.value)
}
