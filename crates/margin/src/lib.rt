// How far around a point a primitive's answer stays as it is within the primitive's box.

#![tactic(auto)]

ghost use Rattle.std.specs.Prelude.{◌+◌, ◌≤◌, true, ◌≡◌, nat_abs};
ghost use Rattle.rules.specs.declared.Primitive.TheVariants as primitive;
ghost use Rattle.rules.specs.Boxes.{holds, everywhere};
ghost use Rattle.rules.specs.Ranges.{within, columns};
ghost use Rattle.rules.specs.Fields.{radii, wedge_right, drum_right, corner_right, triangle_right};
ghost use Rattle.rules.specs.Sides.{side};
ghost use Rattle.laws.specs.Sound.{solid_right};
ghost use Rattle.span.specs.Along.{places};
ghost use Rattle.margin.specs.Edges.{most_steps, Slack, past_plane, edge_weight, past_ellipse, bend_weight};
ghost use Rattle.margin.specs.Margins.{Margin};

use rules::{Corner, DrumShape, Point, Primitive, TriangleShape, WedgeShape};

// The most that a margin says, as a box does: all places of a line.
const PLACES: u64 = span::LAST + 1;

// A quiet trace moves by a few codes: further than this a drum's edge, which bends with every step, is not looked at.
const MOST_STEPS: u64 = 64;

// How many steps of a weight leave a number its sign, of the most that are asked for.
fn slack(f: i64, weight: u64, most: u64) -> u64
    ensures slack { Slack f weight result }
    ensures bounded { result ≤ most }
{
    if weight == 0 {
        return most;
    }
    (f.unsigned_abs().saturating_sub(1) / weight).min(most)
}

// How many steps leave ax + by - (d - cz) its sign.
fn plane_slack(w: WedgeShape, p: Point) -> u64
    requires w_value { wedge_right w ≡ true }
    requires p_value { holds everywhere p ≡ true }
    ensures slack { Slack (past_plane w.a w.b w.c w.d p.x p.y p.z) (nat_abs w.a + nat_abs w.b) result }
    ensures bounded { result ≤ places }
{
    let limit = (w.d as i64) - (w.c as i64) * (p.z as i64);
    let past = (w.a as i64) * (p.x as i64) + (w.b as i64) * (p.y as i64) - limit;
    let weight = w.a.unsigned_abs() + w.b.unsigned_abs();
    slack(past, weight as u64, PLACES)
}

// Out of its box nothing is asked of a primitive: that test is cheap and goes before the others.
fn wedge_margin(w: WedgeShape, p: Point) -> u64
    requires w_value { wedge_right w ≡ true }
    requires p_value { holds everywhere p ≡ true }
    ensures margin { Margin (primitive.Wedge w) p result }
    ensures bounded { result ≤ places }
{
    if !solid::in_box(w.bounds, p) {
        return 0;
    }
    plane_slack(w, p)
}

// How many steps leave a point on its side of an edge.
fn edge_slack(a: Corner, b: Corner, p: Point) -> u64
    requires corners_value { (corner_right a ≡ true) × (corner_right b ≡ true) }
    requires p_value { holds everywhere p ≡ true }
    ensures slack { Slack (side a b p.x p.y) (edge_weight a b) result }
    ensures bounded { result ≤ places }
{
    let weight = a.y.abs_diff(b.y) as u64 + b.x.abs_diff(a.x) as u64;
    slack(solid::side(a, b, p.x, p.y), weight, PLACES)
}

// How many steps leave a point on its side of all three edges.
fn triangle_margin(t: TriangleShape, p: Point) -> u64
    requires t_value { triangle_right t ≡ true }
    requires p_value { holds everywhere p ≡ true }
    ensures margin { Margin (primitive.Triangle t) p result }
    ensures bounded { result ≤ places }
{
    let bounds = solid::box_of(Primitive::Triangle(t));
    if !solid::in_box(bounds, p) {
        return 0;
    }
    let one = edge_slack(t.first, t.second, p);
    let other = edge_slack(t.second, t.third, p);
    let last = edge_slack(t.third, t.first, p);
    one.min(other).min(last)
}

// What one of so few steps changes r²(v - c)² by, at most.
fn bend_weight(radius: i32, centre: i32, v: i32) -> u64
    requires radius_value { within radii radius ≡ true }
    requires centre_value { (within columns centre ≡ true) × (within columns v ≡ true) }
    ensures value { result ≡ bend_weight radius centre v }
    ensures bounded { result ≤ 10000000000000 }
{
    let r = radius.unsigned_abs() as u64;
    r * r * (2 * (v.abs_diff(centre) as u64) + MOST_STEPS)
}

// How many steps leave a point inside an ellipse or out of it.
fn ellipse_slack(d: DrumShape, p: Point) -> u64
    requires d_value { drum_right d ≡ true }
    requires p_value { holds everywhere p ≡ true }
    ensures slack { Slack (past_ellipse d.cx d.cy d.rx d.ry p.x p.y) (bend_weight d.ry d.cx p.x + bend_weight d.rx d.cy p.y) result }
    ensures bounded { result ≤ most_steps }
{
    let weight = bend_weight(d.ry, d.cx, p.x) + bend_weight(d.rx, d.cy, p.y);
    slack(solid::past_ellipse(d, p), weight, MOST_STEPS)
}

fn drum_margin(d: DrumShape, p: Point) -> u64
    requires d_value { drum_right d ≡ true }
    requires p_value { holds everywhere p ≡ true }
    ensures margin { Margin (primitive.Drum d) p result }
    ensures bounded { result ≤ most_steps }
{
    let bounds = solid::box_of(Primitive::Drum(d));
    if !solid::in_box(bounds, p) {
        return 0;
    }
    ellipse_slack(d, p)
}

// A box fills its box; the others are as far from their edges as their slack says.
pub fn margin(s: Primitive, p: Point) -> u64
    requires s_value { solid_right s ≡ true }
    requires p_value { holds everywhere p ≡ true }
    ensures margin { Margin s p result }
    ensures bounded { result ≤ places }
{
    match s {
        Primitive::Box(_) => PLACES,
        Primitive::Wedge(w) => wedge_margin(w, p),
        Primitive::Drum(d) => drum_margin(d, p),
        Primitive::Triangle(t) => triangle_margin(t, p),
    }
}
