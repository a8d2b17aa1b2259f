// The tree's answer at a point, and the search over the tree.

#![tactic(auto)]

ghost use Rattle.std.proofs.Math.Option.{none};
ghost use Rattle.std.specs.Prelude.{◌≡◌};
ghost use Rattle.rules.specs.Verdict.{table_refusal};
ghost use Rattle.rules.specs.Told.{searched_of};
ghost use Rattle.rules.specs.TreeCalls.{TreeLocated, TreeSearched};

use rules::{Hit, Place, Point, Refusal, Searched};
use says::Asked;

// The table is sound: the range, then the tree.
fn sound_point(table: &[i32], p: Point) -> Result<bool, Refusal>
    requires { table_refusal table.now ≡ none }
    ensures { TreeLocated table.now p result }
{
    window::check_point(window::everywhere(), p)?;
    let no_list: [u64; 1] = [0; 1];
    Ok(sweep::inside_at(Asked::Tree, table, &no_list, p))
}

pub fn tree_point(table: &[i32], p: Point) -> Result<bool, Refusal>
    ensures { TreeLocated table.now p result }
{
    table::check(table)?;
    sound_point(table, p)
}

// The table is sound: the frame, then its samples.
fn sound_search(table: &[i32], samples: &[i16], place: Place) -> Result<Option<Hit>, Refusal>
    requires { table_refusal table.now ≡ none }
    ensures { TreeSearched table.now samples.now place (searched_of result) }
{
    frame::check_frame(samples, place)?;
    let no_list: [u64; 1] = [0; 1];
    Ok(sweep::scan(Asked::Tree, table, &no_list, samples, place))
}

// The table, then the frame and its samples.
fn checked_search(table: &[i32], samples: &[i16], place: Place) -> Result<Option<Hit>, Refusal>
    ensures { TreeSearched table.now samples.now place (searched_of result) }
{
    table::check(table)?;
    sound_search(table, samples, place)
}

pub fn tree_search(table: &[i32], samples: &[i16], place: Place) -> Searched
    ensures { TreeSearched table.now samples.now place result }
{
    Searched::from(checked_search(table, samples, place))
}
