// The ways of a zone, told in order: what each comes to, by the list for the window. A product that came before is told by the way that first
// came to it, and so these ways are remembered, by the numbers of their products.
ghost use Rattle.std.specs.Prelude.{◌+◌, ◌≤◌, ◌<◌, ◌≡◌, length};
ghost use Rattle.rules.specs.Choices.{expansion};
ghost use Rattle.rules.specs.ListWords.{product_count, place_of};
ghost use Rattle.rules.specs.Tree.{tree_of};
ghost use Rattle.promises.specs.EachOnce.{choice};
ghost use Rattle.laws.specs.Sound.{Sound};
ghost use Rattle.choice.specs.Steps.{Numbered, Remembered};
ghost use Rattle.fate.specs.FirstWays.{NumberIn, ToldTo, ComesTo};

use rules::{Axis, Product, Window};

// What a way comes to: nothing, an earlier way's product, or a product of the list that no earlier way came to.
#[derive(Clone, Copy)]
pub enum End {
    Dropped(Axis),
    Again(Product, u64),
    Listed(Product, usize),
}

// A way's choice, what it comes to, and how many products have been told by now.
#[derive(Clone, Copy)]
pub struct Told {
    pub chosen: Product,
    pub end: End,
    pub products: usize,
}

// The number of a product in a list: the first place that has it, or how many products there are.
fn number_in(list: &[u64], c: Product) -> usize
    requires { place_of (product_count list.now) ≤ length list.now }
    ensures { NumberIn list.now c result }
{
    let count = list[0] as usize;
    for k in 0..count {
        if layout::product_at(list, k) == c {
            return k;
        }
    }
    count
}

// Way k, after so many products.
pub fn tell_way(
    firsts: &mut [u64; 65536],
    counts: &mut [u64; 254],
    table: &[i32],
    bits: &[u64; 127],
    list: &[u64],
    w: Window,
    k: u64,
    products: usize,
) -> Told
    requires sound { Sound table.now }
    requires numbered { Numbered table.now bits.now }
    requires remembered { Remembered table.now counts.old }
    requires k_bound { k < expansion (tree_of table.now) }
    requires told_so_far { ToldTo table.now w list.now firsts.old k products }
    ensures remembered { Remembered table.now counts.new }
    ensures comes_to { (result.chosen ≡ choice table.now k) × ComesTo table.now w list.now k result.end }
    ensures told_to { ToldTo table.now w list.now firsts.new (k + 1) result.products }
{
    let chosen = crate::way(table, bits, counts, k);
    match crate::fate_in(table, bits, chosen, w) {
        Err(axis) => Told {
            chosen,
            end: End::Dropped(axis),
            products,
        },
        Ok(c) => {
            let number = number_in(list, c);
            if number < products {
                return Told {
                    chosen,
                    end: End::Again(c, firsts[number]),
                    products,
                };
            }
            firsts[number] = k;
            Told {
                chosen,
                end: End::Listed(c, number),
                products: products + 1,
            }
        }
    }
}
