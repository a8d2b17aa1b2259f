// The ways of choosing in a row's tree, by recursion on the row: how many there are, and the k-th of them.

#![tactic(auto)]

ghost use Rattle.std.specs.Prelude.{◌+◌, ◌<◌, ◌≡◌};
ghost use lib.ListN.{length};
ghost use Rattle.rules.specs.Choices.{joined};
ghost use Rattle.rules.specs.Table.{row_count, primitives, primitives_before};
ghost use Rattle.laws.specs.Sound.{Sound};
ghost use Rattle.laws.specs.Plans.{count, kth};
ghost use Rattle.choice.specs.Steps.{plan_at, root_plan, slot_of, IsStep, NumberedTo, Numbered, Remembered};

use rules::{Product, Row};

// What a row is on a side: a primitive's bit, in or out, or two parts, each a row and its side, of which either is chosen, or both.
#[derive(Clone, Copy)]
pub enum Step {
    With(u64),
    Without(u64),
    Either(usize, bool, usize, bool),
    Both(usize, bool, usize, bool),
}

pub fn read_step(table: &[i32], bits: &[u64; 127], row: usize, within: bool) -> Step
    requires sound { Sound table.now }
    requires row_bound { row < row_count table.now }
    requires numbered { Numbered table.now bits.now }
    ensures { IsStep table.now row (plan_at table.now row within) result }
{
    let reads = table::read_row(table, row);
    match reads {
        Row::Solid(_) => {
            if within {
                return Step::With(bits[row]);
            }
            Step::Without(bits[row])
        }
        Row::Union(left, right) => {
            if within {
                return Step::Either(left, true, right, true);
            }
            Step::Both(left, false, right, false)
        }
        Row::Inter(left, right) => {
            if within {
                return Step::Both(left, true, right, true);
            }
            Step::Either(left, false, right, false)
        }
        Row::Diff(left, right) => {
            if within {
                return Step::Both(left, true, right, false);
            }
            Step::Either(left, false, right, true)
        }
    }
}

// Sets the bit of a row that is a primitive, after so many primitives; how many there are then.
fn number_row(bits: &mut [u64; 127], table: &[i32], row: usize, n: usize) -> usize
    requires sound { Sound table.now }
    requires row_bound { row < row_count table.now }
    requires n_value { (n ≡ length (primitives_before table.now row)) × NumberedTo table.now bits.old row }
    ensures { (result ≡ length (primitives_before table.now (row + 1))) × NumberedTo table.now bits.new (row + 1) }
{
    match table::primitive_at(table, row) {
        Some(_) => {
            bits[row] = 1u64 << n;
            n + 1
        }
        None => n,
    }
}

// The bit of each primitive, at its row; how many primitives there are.
pub fn number_rows(bits: &mut [u64; 127], table: &[i32]) -> usize
    requires sound { Sound table.now }
    requires bits_len { length bits.old ≡ 127 }
    ensures { (result ≡ length (primitives table.now)) × Numbered table.now bits.new }
{
    let rows = table::row_count(table);
    let mut n: usize = 0;
    for row in 0..rows {
        n = number_row(bits, table, row, n);
    }
    n
}

// Where the count of a row on a side is remembered.
fn slot(row: usize, within: bool) -> usize
    requires { row < 127 }
    ensures { (result ≡ slot_of row within) × (result < 254) }
{
    if within {
        return row;
    }
    127 + row
}

fn remember(counts: &mut [u64; 254], at: usize, n: u64) -> u64
    requires { at < 254 }
    ensures { (result ≡ n) × (counts.new ≡ lib.ListN.set counts.old at n) }
{
    counts[at] = n;
    n
}

// How many ways there are; a count that was found once is remembered, and 0 says that it was not.
pub fn count_ways(
    table: &[i32],
    bits: &[u64; 127],
    counts: &mut [u64; 254],
    row: usize,
    within: bool,
) -> u64
    requires sound { Sound table.now }
    requires row_bound { row < row_count table.now }
    requires numbered { Numbered table.now bits.now }
    requires remembered { Remembered table.now counts.old }
    ensures { (result ≡ count (plan_at table.now row within)) × Remembered table.now counts.new }
{
    let at = slot(row, within);
    let known = counts[at];
    if known != 0 {
        return known;
    }
    let step = read_step(table, bits, row, within);
    match step {
        Step::With(_) => remember(counts, at, 1),
        Step::Without(_) => remember(counts, at, 1),
        Step::Either(a, sa, b, sb) => {
            let x = count_ways(table, bits, counts, a, sa);
            let y = count_ways(table, bits, counts, b, sb);
            remember(counts, at, x + y)
        }
        Step::Both(a, sa, b, sb) => {
            let x = count_ways(table, bits, counts, a, sa);
            let y = count_ways(table, bits, counts, b, sb);
            remember(counts, at, x * y)
        }
    }
}

// How many ways there are, the counts of the rows being remembered only here.
pub fn ways_of(table: &[i32], bits: &[u64; 127]) -> u64
    requires { Sound table.now × Numbered table.now bits.now }
    ensures { result ≡ count (root_plan table.now) }
{
    let mut counts: [u64; 254] = [0; 254];
    let root = table::root(table);
    count_ways(table, bits, &mut counts, root, true)
}

fn together(a: Product, b: Product) -> Product
    ensures { result ≡ joined a b }
{
    Product {
        plain: a.plain | b.plain,
        cuts: a.cuts | b.cuts,
    }
}

// The k-th way.
pub fn choose(
    table: &[i32],
    bits: &[u64; 127],
    counts: &mut [u64; 254],
    row: usize,
    within: bool,
    k: u64,
) -> Product
    requires sound { Sound table.now }
    requires row_bound { row < row_count table.now }
    requires numbered { Numbered table.now bits.now }
    requires remembered { Remembered table.now counts.old }
    requires k_bound { k < count (plan_at table.now row within) }
    ensures { (result ≡ kth (plan_at table.now row within) k) × Remembered table.now counts.new }
{
    let step = read_step(table, bits, row, within);
    match step {
        Step::With(bit) => Product {
            plain: bit,
            cuts: 0,
        },
        Step::Without(bit) => Product {
            plain: 0,
            cuts: bit,
        },
        Step::Either(a, sa, b, sb) => {
            let n = count_ways(table, bits, counts, a, sa);
            if k < n {
                return choose(table, bits, counts, a, sa, k);
            }
            choose(table, bits, counts, b, sb, k - n)
        }
        Step::Both(a, sa, b, sb) => {
            let n = count_ways(table, bits, counts, a, sa);
            let x = choose(table, bits, counts, a, sa, k % n);
            let y = choose(table, bits, counts, b, sb, k / n);
            together(x, y)
        }
    }
}
