// The walk: from place to place in the order of the choices, with the right parts that are still to be walked put aside.
ghost use Rattle.std.specs.Prelude.{◌+◌, ◌≤◌, true, false, [], ◌∷◌, ◌≡◌, length, MatchOption};
ghost use Rattle.rules.specs.ListWords.{place_of};
ghost use Rattle.rules.specs.ListCalls.{most_choices};
ghost use Rattle.rows.specs.Rows.{InRows};
ghost use Rattle.walk.specs.Tracks.{aged_at, open_at, end_of, walk_at, start_of, Held, Goes, Put};

use places::{Aside, Place};
use rows::{PlanRow, PlanRows};
use rules::Product;

// The right part that is done just before this place holds a repeat.
fn aged(rows: &[PlanRow; 127], at: Place) -> bool
    requires { InRows rows.now at.row }
    ensures { result ≡ aged_at rows.now at }
{
    match rows[at.row].links.done {
        Some(done) => repeats::stale_at(rows, usize::from(done), at.plain, at.cuts, at.reach),
        None => false,
    }
}

// The walk goes on from here: it is not at the end, what is chosen is in reach, and the part that is done holds no repeat.
fn is_open(plan: &PlanRows, at: Place) -> bool
    requires { at.row ≤ plan.now.end }
    ensures { result ≡ open_at plan.now.rows.now plan.now.end at }
{
    at.row != plan.end
        && at.plain & (at.reach & plan.rows[at.row].masks.span) == at.plain
        && !aged(plan.rows, at)
}

// Goes on from a place as long as it can.
fn run(plan: &PlanRows, aside: &mut Aside, from: Place) -> Place
    requires { Held plan.now.end (from ∷ aside.old) }
    ensures goes { Goes plan.now.rows.now plan.now.end (from ∷ aside.old) (result ∷ aside.new) }
    ensures stops { open_at plan.now.rows.now plan.now.end result ≡ false }
{
    let mut at = from;
    while is_open(plan, at) {
        places::fork(plan.rows, aside, at);
        at = places::onward(plan.rows, at);
    }
    at
}

// The product where a walk stops, if there is one.
#[tactic(auto, unfolding(crate::specs::Tracks::end_of))]
fn product_at(plan: &PlanRows, at: Place) -> Option<Product>
    ensures { MatchOption result (end_of plan.now.rows.now plan.now.end at ≡ []) (λ product. end_of plan.now.rows.now plan.now.end at ≡ product ∷ []) }
{
    if at.row != plan.end || at.plain & at.reach != at.plain {
        return None;
    }
    if repeats::stale_at(plan.rows, 0, at.plain, at.cuts, at.reach) {
        return None;
    }
    Some(Product {
        plain: at.plain,
        cuts: at.cuts & at.reach,
    })
}

// Counts the product where a walk stops, if there is one, and writes it after so many if products are to be kept.
fn finish(plan: &PlanRows, at: Place, list: &mut [u64], count: usize, keeps: bool) -> usize
    requires few { count + length (end_of plan.now.rows.now plan.now.end at) ≤ most_choices }
    requires room { keeps ≡ true → place_of (count + length (end_of plan.now.rows.now plan.now.end at)) ≤ length list.old }
    ensures { Put keeps list.old list.new count result (end_of plan.now.rows.now plan.now.end at) }
{
    let Some(product) = product_at(plan, at) else {
        return count;
    };
    if keeps {
        layout::put_product(list, count, product);
    }
    count + 1
}

// All products of the rows, in order: how many there are, and if they are to be kept they are written after the header.
pub fn walk(plan: &PlanRows, seen: u64, list: &mut [u64], keeps: bool) -> usize
    requires few { length (walk_at plan.now.rows.now plan.now.end (start_of seen)) ≤ most_choices }
    requires room { keeps ≡ true → place_of (length (walk_at plan.now.rows.now plan.now.end (start_of seen))) ≤ length list.old }
    ensures { Put keeps list.old list.new 0 result (walk_at plan.now.rows.now plan.now.end (start_of seen)) }
{
    let mut aside = Aside::new();
    aside.push(Place {
        row: 0,
        plain: 0,
        cuts: 0,
        reach: seen,
    });
    let mut count = 0;
    while let Some(from) = aside.pop() {
        let at = run(plan, &mut aside, from);
        count = finish(plan, at, list, count, keeps);
    }
    count
}
