// A list's words: its header and its products, written and read.

#![tactic(auto)]

ghost use Rattle.std.specs.Prelude.{◌+◌, ◌≤◌, ◌<◌, true, ◌≡◌, length};
ghost use Rattle.std.proofs.Math.Option.{none};
ghost use Rattle.std.proofs.lemmas.List.Edits.{sets};
ghost use Rattle.rules.specs.Boxes.{window_box};
ghost use Rattle.rules.specs.ListCalls.{window_refusal};
ghost use Rattle.rules.specs.ListFaults.{most_products};
ghost use Rattle.rules.specs.ListWords.{header_words, header_of, words_of, offset, most_word, word, bounds_word, raised, lowered, list_window, place_of, product_at};
ghost use Rattle.rules.specs.Ranges.{within, range};
ghost use Rattle.laws.specs.SoundList.{SoundList};

use rules::{Axis, Product, Window};

// What a header adds to a bound of an axis.
fn offset(axis: Axis) -> u64
    ensures { result ≡ offset axis }
{
    match axis {
        Axis::Column => rules::COLUMN_OFFSET,
        Axis::Code => rules::CODE_OFFSET,
        Axis::Frame => rules::FRAME_OFFSET,
    }
}

// The greatest word that a bound of an axis can be.
pub fn most_word(axis: Axis) -> u64
    ensures { result ≡ most_word axis }
{
    match axis {
        Axis::Column => 2 * rules::COLUMN_OFFSET - 1,
        Axis::Code => 2 * rules::CODE_OFFSET - 1,
        Axis::Frame => 2 * rules::FRAME_OFFSET - 1,
    }
}

// Where the lo of an axis stands; its hi stands in the word after that.
pub fn bounds_word(axis: Axis) -> usize
    ensures { result ≡ bounds_word axis }
{
    match axis {
        Axis::Column => 1,
        Axis::Code => 3,
        Axis::Frame => 5,
    }
}

// A bound as a header has it: never negative.
fn raise(axis: Axis, bound: i32) -> u64
    requires { within (range axis) bound ≡ true }
    ensures { result ≡ raised axis bound }
{
    let above = offset(axis) as i64;
    ((bound as i64) + above) as u64
}

// A bound from its word.
pub fn lower(axis: Axis, word: u64) -> i32
    requires { word ≤ most_word axis }
    ensures { result ≡ lowered axis word }
{
    let above = offset(axis) as i64;
    ((word as i64) - above) as i32
}

// The place of product k's first word.
pub fn place_of(k: usize) -> usize
    requires { k ≤ most_products }
    ensures { result ≡ place_of k }
{
    rules::HEADER_WORDS + rules::PRODUCT_WORDS * k
}

// Product k of a list.
pub fn product_at(list: &[u64], k: usize) -> Product
    requires { place_of (k + 1) ≤ length list.now }
    ensures { result ≡ product_at list.now k }
{
    let at = rules::HEADER_WORDS + rules::PRODUCT_WORDS * k;
    Product {
        plain: list[at],
        cuts: list[at + 1],
    }
}

// Writes product k.
pub fn put_product(list: &mut [u64], k: usize, c: Product)
    requires { place_of (k + 1) ≤ length list.old }
    ensures { list.new ≡ sets list.old (place_of k) (words_of c) }
{
    let at = rules::HEADER_WORDS + rules::PRODUCT_WORDS * k;
    list[at] = c.plain;
    list[at + 1] = c.cuts;
}

// Writes the header of a list for a window.
pub fn write_header(list: &mut [u64], w: Window, primitives: usize, products: usize)
    requires w_value { window_refusal w ≡ none }
    requires header_words_in_bounds { header_words ≤ length list.old }
    ensures { list.new ≡ sets list.old 0 (header_of w primitives products) }
{
    list[0] = products as u64;
    list[1] = raise(Axis::Column, w.xlo);
    list[2] = raise(Axis::Column, w.xhi);
    list[3] = raise(Axis::Code, w.ylo);
    list[4] = raise(Axis::Code, w.yhi);
    list[5] = raise(Axis::Frame, w.zlo);
    list[6] = raise(Axis::Frame, w.zhi);
    list[rules::PRIMITIVES_WORD] = primitives as u64;
}

// A bound of a list's window: that of an axis in the word at its lo, or in the one after it.
fn bound_at(list: &[u64], axis: Axis, i: usize) -> i32
    requires i_in_bounds { i < length list.now }
    requires i_bound { word list.now i ≤ most_word axis }
    ensures { result ≡ lowered axis (word list.now i) }
{
    lower(axis, list[i])
}

pub fn window_of(list: &[u64]) -> Window
    requires { SoundList list.now }
    ensures { window_box result ≡ list_window list.now }
{
    Window {
        xlo: bound_at(list, Axis::Column, 1),
        xhi: bound_at(list, Axis::Column, 2),
        ylo: bound_at(list, Axis::Code, 3),
        yhi: bound_at(list, Axis::Code, 4),
        zlo: bound_at(list, Axis::Frame, 5),
        zhi: bound_at(list, Axis::Frame, 6),
    }
}
