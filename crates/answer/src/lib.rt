// Asking a list that was accepted: a point of its window, and a frame that lies in it.

#![tactic(auto)]

ghost use Rattle.std.proofs.Math.Option.{none};
ghost use Rattle.std.specs.Prelude.{◌≡◌};
ghost use Rattle.rules.specs.Boxes.{window_box};
ghost use Rattle.rules.specs.Frame.{frame_refusal, leaves_refusal};
ghost use Rattle.rules.specs.ListCalls.{ListLocated, ListSearched};
ghost use Rattle.rules.specs.Told.{searched_of};
ghost use Rattle.laws.specs.Checking.{checked_by};
ghost use Rattle.says.specs.Checks.{Accepted};

use rules::{Hit, Place, Point, Refusal, Rule, Searched, Window};
use says::Asked;

// Table and list are accepted: the window, then the products.
fn point_in(table: &[i32], list: &[u64], p: Point) -> Result<bool, Refusal>
    requires { Accepted table.now list.now }
    ensures { ListLocated table.now list.now p result }
{
    window::check_point(layout::window_of(list), p)?;
    Ok(sweep::inside_at(Asked::List, table, list, p))
}

pub fn list_point(table: &[i32], list: &[u64], p: Point) -> Result<bool, Refusal>
    ensures { ListLocated table.now list.now p result }
{
    accept::check_both(table, list)?;
    point_in(table, list, p)
}

// The first sample out of a window.
fn check_leaves(w: Window, samples: &[i16], place: Place) -> Result<(), Refusal>
    requires { frame_refusal samples.now place ≡ none }
    ensures { result ≡ checked_by (leaves_refusal (window_box w) samples.now place) }
{
    for k in 0..samples.len() {
        let inside = window::in_window(w, frame::point_at(samples, place, k));
        table::refuse_unless(inside, Rule::Outside, k)?;
    }
    Ok(())
}

// The frame is right: its samples in the window, then what they hit.
fn search_in(
    table: &[i32],
    list: &[u64],
    samples: &[i16],
    place: Place,
) -> Result<Option<Hit>, Refusal>
    requires accepted { Accepted table.now list.now }
    requires place_value { frame_refusal samples.now place ≡ none }
    ensures { ListSearched table.now list.now samples.now place (searched_of result) }
{
    check_leaves(layout::window_of(list), samples, place)?;
    Ok(sweep::scan(Asked::List, table, list, samples, place))
}

// Table and list are accepted: the frame, then its samples.
fn accepted_search(
    table: &[i32],
    list: &[u64],
    samples: &[i16],
    place: Place,
) -> Result<Option<Hit>, Refusal>
    requires { Accepted table.now list.now }
    ensures { ListSearched table.now list.now samples.now place (searched_of result) }
{
    frame::check_frame(samples, place)?;
    search_in(table, list, samples, place)
}

// Table and list are accepted: what the search of a frame answers.
pub fn search_by(table: &[i32], list: &[u64], samples: &[i16], place: Place) -> Searched
    requires { Accepted table.now list.now }
    ensures { ListSearched table.now list.now samples.now place result }
{
    Searched::from(accepted_search(table, list, samples, place))
}

// Table and list, then the frame and its samples.
fn checked_search(
    table: &[i32],
    list: &[u64],
    samples: &[i16],
    place: Place,
) -> Result<Option<Hit>, Refusal>
    ensures { ListSearched table.now list.now samples.now place (searched_of result) }
{
    accept::check_both(table, list)?;
    accepted_search(table, list, samples, place)
}

pub fn list_search(table: &[i32], list: &[u64], samples: &[i16], place: Place) -> Searched
    ensures { ListSearched table.now list.now samples.now place result }
{
    Searched::from(checked_search(table, list, samples, place))
}
