// Making the list of a zone and a window, by one walk over the ways of choosing.

#![tactic(auto)]

ghost use Rattle.std.specs.Prelude.{◌≤◌, ◌≡◌, length};
ghost use Rattle.std.proofs.Math.Option.{none};
ghost use Rattle.rules.specs.Table.{primitives};
ghost use Rattle.rules.specs.Verdict.{table_refusal};
ghost use Rattle.rules.specs.ListWords.{place_of};
ghost use Rattle.rules.specs.ListCalls.{most_choices, window_refusal, ListMade};
ghost use Rattle.laws.specs.Plans.{count};
ghost use Rattle.laws.specs.Sound.{Sound};
ghost use Rattle.choice.specs.Steps.{Numbered, root_plan};
ghost use Rattle.walk.specs.Tracks.{walk_at, start_of};
ghost use Rattle.list.specs.Words.{Measured};

use rows::PlanRows;
use rules::{Refusal, Rule, Window};

// Words that are enough: room for every way where that is there, so that one walk does; else exactly what the products take.
fn measure(list: &mut [u64], plan: &PlanRows, seen: u64, ways: u64) -> usize
    requires { (length (walk_at plan.now.rows.now plan.now.end (start_of seen)) ≤ ways) × (ways ≤ most_choices) }
    ensures { Measured (place_of (length (walk_at plan.now.rows.now plan.now.end (start_of seen)))) (length list.old) result × (list.new ≡ list.old) }
{
    let most = layout::place_of(ways as usize);
    if most <= list.len() {
        return most;
    }
    layout::place_of(walk::walk(plan, seen, list, false))
}

// The ways are not too many: the room, then the list.
fn make_of(
    list: &mut [u64],
    w: Window,
    table: &[i32],
    bits: &[u64; 127],
    solids: usize,
    ways: u64,
) -> Result<usize, Refusal>
    requires table_value { (table_refusal table.now ≡ none) × (window_refusal w ≡ none) }
    requires numbered { Numbered table.now bits.now × (solids ≡ length (primitives table.now)) }
    requires ways_value { (ways ≡ count (root_plan table.now)) × (ways ≤ most_choices) }
    ensures { ListMade table.now w list.old list.new result }
{
    let seen = reach::seen_in(table, w);
    let mut rows = [rows::BLANK; 127];
    let end = laying::lay(table, bits, seen, &mut rows);
    let plan = PlanRows { rows: &rows, end };
    let needed = measure(list, &plan, seen, ways);
    if list.len() < needed {
        return Err(Refusal::new(Rule::Room, needed));
    }
    let n = walk::walk(&plan, seen, list, true);
    layout::write_header(list, w, solids, n);
    Ok(layout::place_of(n))
}

// The table is sound and the window right: the ways, then the list.
fn make_for(list: &mut [u64], table: &[i32], w: Window) -> Result<usize, Refusal>
    requires { (table_refusal table.now ≡ none) × (window_refusal w ≡ none) }
    ensures { ListMade table.now w list.old list.new result }
{
    let mut bits: [u64; 127] = [0; 127];
    let solids = choice::number_rows(&mut bits, table);
    let ways = choice::ways_of(table, &bits);
    if rules::MOST_CHOICES < ways {
        return Err(Refusal {
            rule: Rule::Choices,
            value: ways,
        });
    }
    make_of(list, w, table, &bits, solids, ways)
}

// The table is sound: the window, then the list.
fn make_in(list: &mut [u64], table: &[i32], w: Window) -> Result<usize, Refusal>
    requires { table_refusal table.now ≡ none }
    ensures { ListMade table.now w list.old list.new result }
{
    window::check_window(w)?;
    make_for(list, table, w)
}

pub fn make_list(table: &[i32], w: Window, list: &mut [u64]) -> Result<usize, Refusal>
    ensures { ListMade table.now w list.old list.new result }
{
    table::check(table)?;
    make_in(list, table, w)
}
