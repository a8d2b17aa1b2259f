// Whether a choice repeats an earlier one: told by its bits and the rows alone.

#![tactic(auto)]

ghost use Rattle.std.specs.Prelude.{◌<◌, ◌&&◌, ◌≡◌};
ghost use Rattle.std.specs.Int.Bits.{bit_and};
ghost use Rattle.laws.specs.Plans.{blank};
ghost use Rattle.rows.specs.Rows.{below_at, plan_in, InRows};
ghost use Rattle.repeats.specs.Repeats.{clear, safe, stale};

use rows::{PlanRow, RowKind};

// No primitive of a set is chosen.
fn clear_of(set: u64, plain: u64, cuts: u64) -> bool
    ensures { result ≡ clear set plain cuts }
{
    (plain & set == 0) & (cuts & set == 0)
}

// No cut of a set is out of reach.
fn safe_in(set: u64, cuts: u64, reach: u64) -> bool
    ensures { result ≡ safe set cuts reach }
{
    cuts & set & reach == cuts & set
}

// Some choice of the row comes to nothing within the reach.
#[tactic(auto, using(crate::proofs::Repeats::blank_with, crate::proofs::Repeats::blank_without, crate::proofs::Repeats::blank_by_either, crate::proofs::Repeats::blank_by_both))]
fn blank_at(rows: &[PlanRow; 127], row: usize, reach: u64) -> bool
    requires { InRows rows.now row }
    ensures { result ≡ blank (plan_in rows.now row) reach }
{
    let here = &rows[row];
    let left = usize::from(here.links.left);
    match here.links.kind {
        RowKind::With => false,
        RowKind::Without => here.masks.below & reach == 0,
        RowKind::Either => blank_at(rows, left, reach) || blank_at(rows, row + 1, reach),
        RowKind::Both => blank_at(rows, left, reach) && blank_at(rows, row + 1, reach),
    }
}

// What is chosen of the right part comes to nothing within the reach, and so does some choice of the left part.
fn hidden(
    rows: &[PlanRow; 127],
    left: usize,
    right: usize,
    plain: u64,
    cuts: u64,
    reach: u64,
) -> bool
    requires { InRows rows.now left × (right < 127) }
    ensures { result ≡ (clear (below_at rows.now right) plain (bit_and cuts reach) && blank (plan_in rows.now left) reach) }
{
    clear_of(rows[right].masks.below, plain, cuts & reach) && blank_at(rows, left, reach)
}

// What is chosen of the row repeats an earlier choice of it.
#[tactic(auto, using(crate::proofs::Repeats::stale_with, crate::proofs::Repeats::stale_without, crate::proofs::Repeats::stale_safe, crate::proofs::Repeats::stale_either, crate::proofs::Repeats::stale_both))]
pub fn stale_at(rows: &[PlanRow; 127], row: usize, plain: u64, cuts: u64, reach: u64) -> bool
    requires { InRows rows.now row }
    ensures { result ≡ stale (plan_in rows.now row) plain cuts reach }
{
    let here = &rows[row];
    if safe_in(here.masks.risk, cuts, reach) {
        return false;
    }
    let left = usize::from(here.links.left);
    match here.links.kind {
        RowKind::With | RowKind::Without => false,
        RowKind::Either if clear_of(rows[left].masks.below, plain, cuts) => {
            hidden(rows, left, row + 1, plain, cuts, reach)
                || stale_at(rows, row + 1, plain, cuts, reach)
        }
        RowKind::Either => stale_at(rows, left, plain, cuts, reach),
        RowKind::Both => {
            stale_at(rows, row + 1, plain, cuts, reach) || stale_at(rows, left, plain, cuts, reach)
        }
    }
}
