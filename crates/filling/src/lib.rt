// The masks of rows with two parts, from the last row to the first, so that a row's parts have theirs before it.

#![tactic(auto)]

ghost use Rattle.std.specs.Prelude.{◌+◌, ◌<◌, ◌≡◌, set};
ghost use Rattle.rows.specs.Rows.{kind_at, left_at, Inner, SoundLinks};
ghost use Rattle.filling.specs.Filling.{either_masks, both_masks, hole_of, filled_in, Fills};

use rows::{Masks, PlanRow, RowKind};

// The masks of an `either` by those of its parts; its own risk is the right part, where both parts can come to nothing.
fn either_of(left: Masks, right: Masks, hollow: bool) -> Masks
    ensures { result ≡ either_masks hollow left right }
{
    let own = if hollow { right.below } else { 0 };
    Masks {
        below: left.below | right.below,
        span: left.span | right.span,
        risk: own | (left.risk | right.risk),
    }
}

// The masks of a `both` by those of its parts.
fn both_of(left: Masks, right: Masks) -> Masks
    ensures { result ≡ both_masks left right }
{
    Masks {
        below: left.below | right.below,
        span: left.span & right.span,
        risk: left.risk | right.risk,
    }
}

// The masks of a row, where those of later rows are there, and whether some choice of it comes to nothing.
fn fill_row(rows: &mut [PlanRow; 127], holes: &mut [bool; 127], row: usize)
    requires { (row < 127) × (Inner (kind_at rows.old row) → (row + 1 < left_at rows.old row) × (left_at rows.old row < 127)) }
    ensures rows_after { rows.new ≡ filled_in holes.old row rows.old }
    ensures holes_after { holes.new ≡ set holes.old row (hole_of rows.old holes.old row) }
{
    let left = usize::from(rows[row].links.left);
    match rows[row].links.kind {
        RowKind::With => holes[row] = false,
        RowKind::Without => holes[row] = true,
        RowKind::Either => {
            let hollow = holes[left] & holes[row + 1];
            rows[row].masks = either_of(rows[left].masks, rows[row + 1].masks, hollow);
            holes[row] = holes[left] | holes[row + 1];
        }
        RowKind::Both => {
            rows[row].masks = both_of(rows[left].masks, rows[row + 1].masks);
            holes[row] = holes[left] & holes[row + 1];
        }
    }
}

// The masks of all rows, where the leaves have theirs.
pub fn fill(rows: &mut [PlanRow; 127], end: usize)
    requires { SoundLinks rows.old end }
    ensures { Fills rows.old rows.new end 0 }
{
    // beside the rows and not in them, since only this loop asks for them
    let mut holes: [bool; 127] = [false; 127];
    for row in (0..end).rev() {
        fill_row(rows, &mut holes, row);
    }
}
