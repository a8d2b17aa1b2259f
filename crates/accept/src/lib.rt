// Accepting a list: its check word by word, and that it was made for as many primitives as the table has.

#![tactic(auto)]

ghost use Rattle.std.specs.Prelude.{suc, ◌+◌, ◌*◌, ◌^◌, ◌≤◌, ◌<◌, [], ◌∷◌, ◌≡◌, length};
ghost use Rattle.ground.specs.Lists.{first_of, rulings};
ghost use Rattle.rules.specs.Table.{primitives};
ghost use Rattle.rules.specs.ListWords.{header_words, primitives_word, primitive_count, place_of};
ghost use Rattle.rules.specs.ListFaults.{count_right, words_refusals, bounds_refusals, primitives_right, product_refusals, header_refusals, list_refusal, primitives_refusal};
ghost use Rattle.rules.specs.ListCalls.{accept_refusal};
ghost use Rattle.rules.specs.Refusals.{refuse_unless};
ghost use Rattle.rules.specs.declared.Rule.TheVariants.{List};
ghost use Rattle.laws.specs.Checking.{checked_by};
ghost use Rattle.laws.specs.Sound.{Sound};

use rules::{Axis, Refusal, Rule};

// Word 0: no more products than the list's length holds.
fn check_count(list: &[u64]) -> Result<(), Refusal>
    requires { header_words ≤ length list.now }
    ensures { result ≡ checked_by (refuse_unless (count_right list.now) List 0) }
{
    let room = ((list.len() - rules::HEADER_WORDS) / rules::PRODUCT_WORDS) as u64;
    table::refuse_if(
        ((rules::MOST_PRODUCTS as u64) < list[0]) | (room < list[0]),
        Rule::List,
        0,
    )
}

// Bounds in words i and i + 1: each at most so much, and hi not below lo.
fn check_words(list: &[u64], i: usize, most: u64) -> Result<(), Refusal>
    requires { i + 1 < length list.now }
    ensures { result ≡ checked_by (first_of (words_refusals list.now i most)) }
{
    let lo = list[i];
    let hi = list[i + 1];
    table::refuse_if(most < lo, Rule::List, i)?;
    table::refuse_if((most < hi) | (hi < lo), Rule::List, i + 1)
}

// The bounds of an axis.
fn check_bounds(list: &[u64], axis: Axis) -> Result<(), Refusal>
    requires { header_words ≤ length list.now }
    ensures { result ≡ checked_by (first_of (bounds_refusals list.now axis)) }
{
    let i = layout::bounds_word(axis);
    let most = layout::most_word(axis);
    check_words(list, i, most)
}

// There are 1 to 64 primitives.
fn check_primitives(list: &[u64]) -> Result<(), Refusal>
    requires { header_words ≤ length list.now }
    ensures { result ≡ checked_by (refuse_unless (primitives_right list.now) List primitives_word) }
{
    let primitives = list[rules::PRIMITIVES_WORD];
    table::refuse_if(
        (primitives < 1) | (64 < primitives),
        Rule::List,
        rules::PRIMITIVES_WORD,
    )
}

// The header, word by word.
fn check_header(list: &[u64]) -> Result<(), Refusal>
    requires { header_words ≤ length list.now }
    ensures { result ≡ checked_by (first_of (header_refusals list.now)) }
{
    check_count(list)?;
    check_bounds(list, Axis::Column)?;
    check_bounds(list, Axis::Code)?;
    check_bounds(list, Axis::Frame)?;
    check_primitives(list)
}

// The greatest set of so many primitives.
fn all_of(primitives: u64) -> u64
    requires { (1 ≤ primitives) × (primitives ≤ 64) }
    ensures { suc result ≡ 2 ^ primitives }
{
    let half: u64 = 1 << (primitives - 1);
    half + (half - 1)
}

// The two words of product k, where `all` is the set of all primitives.
fn check_product(list: &[u64], k: usize, all: u64) -> Result<(), Refusal>
    requires k_in_bounds { place_of (k + 1) ≤ length list.now }
    requires all_value { suc all ≡ 2 ^ primitive_count list.now }
    ensures { result ≡ checked_by (first_of (product_refusals list.now k)) }
{
    let at = rules::HEADER_WORDS + rules::PRODUCT_WORDS * k;
    let c = layout::product_at(list, k);
    table::refuse_if((c.plain == 0) | (all < c.plain), Rule::List, at)?;
    table::refuse_if((all < c.cuts) | (c.plain & c.cuts != 0), Rule::List, at + 1)
}

fn check_products(list: &[u64], products: usize, all: u64) -> Result<(), Refusal>
    requires products_in_bounds { place_of products ≤ length list.now }
    requires all_value { suc all ≡ 2 ^ primitive_count list.now }
    ensures { result ≡ checked_by (rulings (λ k. first_of (product_refusals list.now k)) 0 products) }
{
    for k in 0..products {
        check_product(list, k, all)?;
    }
    Ok(())
}

fn check_list(list: &[u64]) -> Result<(), Refusal>
    ensures { result ≡ checked_by (list_refusal list.now) }
{
    table::refuse_if(list.len() < rules::HEADER_WORDS, Rule::List, list.len())?;
    check_header(list)?;
    check_products(list, list[0] as usize, all_of(list[rules::PRIMITIVES_WORD]))
}

// The list has as many primitives as the table.
fn check_counts(table: &[i32], list: &[u64]) -> Result<(), Refusal>
    requires sound { Sound table.now }
    requires header_words_in_bounds { header_words ≤ length list.now }
    ensures { result ≡ checked_by (primitives_refusal (primitives table.now) list.now) }
{
    let primitives = table::primitive_count(table);
    table::refuse_if(
        list[rules::PRIMITIVES_WORD] != primitives as u64,
        Rule::Primitives,
        primitives,
    )
}

// The table is sound: the list, then the list against the table.
fn check_against(table: &[i32], list: &[u64]) -> Result<(), Refusal>
    requires { Sound table.now }
    ensures { result ≡ checked_by (first_of (list_refusal list.now ∷ primitives_refusal (primitives table.now) list.now ∷ [])) }
{
    check_list(list)?;
    check_counts(table, list)
}

pub fn check_both(table: &[i32], list: &[u64]) -> Result<(), Refusal>
    ensures { result ≡ checked_by (accept_refusal table.now list.now) }
{
    table::check(table)?;
    check_against(table, list)
}
