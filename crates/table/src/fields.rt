// Whether the fields, the spare words and the children of a row are as its kind wants them.
ghost use Rattle.std.specs.Prelude.{◌+◌, ◌≤◌, ◌<◌, ◌≡◌, pos};
ghost use Rattle.ground.specs.Tests.{eq_z};
ghost use Rattle.ground.specs.Lists.{rest, all_of};
ghost use Rattle.rules.specs.Ranges.{within, range};
ghost use Rattle.rules.specs.Table.{word_at};
ghost use Rattle.rules.specs.Fields.{slopes, ends_right, box_right, slopes_right, wedge_right, reach_right, drum_right, corner_right, triangle_right, fields_right, is_earlier, children_right};
ghost use Rattle.table.specs.Reading.{InTable};

use rules::{Axis, BoxShape, Corner, DrumShape, Kind, TriangleShape, WedgeShape};

// Both ends are in the range of an axis, and lo <= hi.
fn ends_right(axis: Axis, lo: i32, hi: i32) -> bool
    ensures { result ≡ ends_right (range axis) lo hi }
{
    axis.contains(lo) & (axis.contains(hi) & (lo <= hi))
}

fn box_right(b: BoxShape) -> bool
    ensures { result ≡ box_right b }
{
    ends_right(Axis::Column, b.xlo, b.xhi)
        & (ends_right(Axis::Code, b.ylo, b.yhi) & ends_right(Axis::Frame, b.zlo, b.zhi))
}

fn is_slope(v: i32) -> bool
    ensures { result ≡ within slopes v }
{
    (rules::LEAST_SLOPE <= v) & (v <= rules::GREATEST_SLOPE)
}

// The slopes are in range, and not all 0.
fn slopes_right(a: i32, b: i32, c: i32) -> bool
    ensures { result ≡ slopes_right a b c }
{
    is_slope(a) & (is_slope(b) & (is_slope(c) & !((a == 0) & ((b == 0) & (c == 0)))))
}

fn wedge_right(w: WedgeShape) -> bool
    ensures { result ≡ wedge_right w }
{
    let bounds = w.bounds;
    box_right(bounds) & slopes_right(w.a, w.b, w.c)
}

// A radius is right, and the centre plus and minus it is in a range.
fn reach_right(least: i32, greatest: i32, centre: i32, radius: i32) -> bool
    ensures { result ≡ reach_right (record { lo = least; hi = greatest }) centre radius }
{
    let low = least as i64;
    let high = greatest as i64;
    let at = centre as i64;
    let by = radius as i64;
    let start = at - by;
    let end = at + by;
    ((1 <= radius) & (radius <= 4096))
        & (((low <= start) & (start <= high)) & ((low <= end) & (end <= high)))
}

fn drum_right(d: DrumShape) -> bool
    ensures { result ≡ drum_right d }
{
    reach_right(rules::LEAST_COLUMN, rules::GREATEST_COLUMN, d.cx, d.rx)
        & (reach_right(rules::LEAST_CODE, rules::GREATEST_CODE, d.cy, d.ry)
            & ends_right(Axis::Frame, d.zlo, d.zhi))
}

fn corner_right(c: Corner) -> bool
    ensures { result ≡ corner_right c }
{
    Axis::Column.contains(c.x) & Axis::Code.contains(c.y)
}

// The area is worked out only where its corners are in range.
fn triangle_right(t: TriangleShape) -> bool
    ensures { result ≡ triangle_right t }
{
    let a = t.first;
    let b = t.second;
    let c = t.third;
    let in_range = corner_right(a) & (corner_right(b) & corner_right(c));
    if !in_range {
        return false;
    }
    ends_right(Axis::Frame, t.zlo, t.zhi) & (solid::side(a, b, c.x, c.y) != 0)
}

pub fn fields_right(table: &[i32], row: usize, kind: Kind) -> bool
    requires { InTable table.now row }
    ensures { result ≡ fields_right kind (word_at table.now row) }
{
    match kind {
        Kind::Box => box_right(crate::decode::box_at(table, row)),
        Kind::Wedge => wedge_right(crate::decode::wedge_at(table, row)),
        Kind::Drum => drum_right(crate::decode::drum_at(table, row)),
        Kind::Union | Kind::Inter | Kind::Diff => true,
        Kind::Triangle => triangle_right(crate::decode::triangle_at(table, row)),
    }
}

// The words of a row from `start` on are 0.
pub fn spare_right(table: &[i32], row: usize, start: usize) -> bool
    requires { InTable table.now row }
    ensures { result ≡ all_of (λ i. eq_z (word_at table.now row i) (pos 0)) (rest start 12) }
{
    for k in start..rules::ROW_WORDS {
        if crate::decode::word(table, row, k) != 0 {
            return false;
        }
    }
    true
}

// A word names an earlier row.
fn is_earlier(row: usize, child: i32) -> bool
    requires { row ≤ 127 }
    ensures { result ≡ is_earlier row child }
{
    (0 <= child) & (child < (row as i32))
}

pub fn children_right(table: &[i32], row: usize, kind: Kind) -> bool
    requires in_table { InTable table.now row }
    requires row_bound { row ≤ 127 }
    ensures { result ≡ children_right kind (word_at table.now row) row }
{
    if kind.is_primitive() {
        return true;
    }
    is_earlier(row, crate::decode::word(table, row, 1))
        & is_earlier(row, crate::decode::word(table, row, 2))
}
