// Windows: the full range, the check of a window, and points in one.

#![tactic(auto)]

ghost use Rattle.std.specs.Prelude.{◌≤◌, ◌≡◌};
ghost use Rattle.ground.specs.Lists.{first_of};
ghost use Rattle.rules.specs.Ranges.{within};
ghost use Rattle.rules.specs.Boxes.{holds, window_box, full_range};
ghost use Rattle.rules.specs.ListCalls.{edges_refusals, window_refusal};
ghost use Rattle.rules.specs.TreeCalls.{point_refusal};
ghost use Rattle.laws.specs.Checking.{checked_by};

use rules::{Axis, Point, Refusal, Rule, Window};

// The range of all points.
pub fn everywhere() -> Window
    ensures { result ≡ full_range }
{
    Window {
        xlo: rules::LEAST_COLUMN,
        xhi: rules::GREATEST_COLUMN,
        ylo: rules::LEAST_CODE,
        yhi: rules::GREATEST_CODE,
        zlo: rules::LEAST_FRAME,
        zhi: rules::GREATEST_FRAME,
    }
}

// A value lies from lo to hi.
pub fn between(lo: i32, v: i32, hi: i32) -> bool
    ensures { result ≡ within (record { lo = lo; hi = hi }) v }
{
    (lo <= v) & (v <= hi)
}

// The bounds of an axis, of which lo is bound i: each in range, and hi not below lo.
fn check_edges(axis: Axis, lo: i32, hi: i32, i: usize) -> Result<(), Refusal>
    requires { i ≤ 4 }
    ensures { result ≡ checked_by (first_of (edges_refusals axis lo hi i)) }
{
    table::refuse_unless(axis.contains(lo), Rule::Bound, i)?;
    table::refuse_unless(axis.contains(hi) & (lo <= hi), Rule::Bound, i + 1)
}

pub fn check_window(w: Window) -> Result<(), Refusal>
    ensures { result ≡ checked_by (window_refusal w) }
{
    check_edges(Axis::Column, w.xlo, w.xhi, 0)?;
    check_edges(Axis::Code, w.ylo, w.yhi, 2)?;
    check_edges(Axis::Frame, w.zlo, w.zhi, 4)
}

// The first axis on which a point is out of a window.
pub fn check_point(w: Window, p: Point) -> Result<(), Refusal>
    ensures { result ≡ checked_by (point_refusal (window_box w) p) }
{
    table::refuse_unless(between(w.xlo, p.x, w.xhi), Rule::Outside, 0)?;
    table::refuse_unless(between(w.ylo, p.y, w.yhi), Rule::Outside, 1)?;
    table::refuse_unless(between(w.zlo, p.z, w.zhi), Rule::Outside, 2)
}

// A point is in a window.
pub fn in_window(w: Window, p: Point) -> bool
    ensures { result ≡ holds (window_box w) p }
{
    between(w.xlo, p.x, w.xhi) & (between(w.ylo, p.y, w.yhi) & between(w.zlo, p.z, w.zhi))
}
