// What a primitive holds of a line of points, the codes of a column or the frames of a place: every primitive is convex, so that it is one stretch.

#![tactic(auto)]

ghost use Rattle.std.specs.Prelude.{◌<◌, ◌≤◌, ◌*◌, ◌+◌, true, false, ◌&&◌, ◌≡◌, pos, nat_abs, ◌*ℤ◌};
ghost use Rattle.std.specs.Int.Signed.{le_z};
ghost use Rattle.rules.specs.declared.Axis.TheVariants.{Frame};
ghost use Rattle.rules.specs.declared.Primitive.TheVariants as primitive;
ghost use Rattle.rules.specs.Ranges.{within, frames};
ghost use Rattle.rules.specs.Fields.{radii, box_right, wedge_right, drum_right, corner_right, corners_right, triangle_right};
ghost use Rattle.rules.specs.Boxes.{holds, everywhere};
ghost use Rattle.rules.specs.Inside.{bounds, in_ellipse, inside_wedge, inside_drum, inside_triangle, inside_solid};
ghost use Rattle.rules.specs.ListWords.{raised};
ghost use Rattle.rules.specs.Products.{box_of};
ghost use Rattle.rules.specs.Sides.{side};
ghost use Rattle.laws.specs.Sound.{solid_right};
ghost use Rattle.span.specs.Along.{places, value, between, Along, shared, near, code_point, point_at, beside, meets, range_along, slope_along, across, left_along, ellipse_left, Root, ahead};

use rules::{BoxShape, Corner, DrumShape, Point, Primitive, TriangleShape, WedgeShape};
use solid::Range;

// What is added to a value to get its place.
const OFFSET: i64 = rules::FRAME_OFFSET as i64;

// The last place of a line.
pub const LAST: u64 = 2 * rules::FRAME_OFFSET - 1;

// Which way a line runs through a point: along the codes of its column and frame, or along the frames of its column and code.
#[derive(Clone, Copy, PartialEq, Eq, Debug)]
pub enum Line {
    Codes,
    Frames,
}

impl Line {
    // What a box has of the axis that a line runs along.
    fn range(self, b: BoxShape) -> Range
        ensures { result ≡ range_along self b }
    {
        match self {
            Line::Codes => solid::codes(b),
            Line::Frames => solid::frames(b),
        }
    }

    // The coordinates that the line's points share are a box's.
    fn meets(self, b: BoxShape, p: Point) -> bool
        ensures { result ≡ meets self (bounds b) p }
    {
        let column = solid::columns(b).contains(p.x);
        match self {
            Line::Codes => column & solid::frames(b).contains(p.z),
            Line::Frames => column & solid::codes(b).contains(p.y),
        }
    }

    // How a wedge's plane rises along a line.
    fn slope(self, w: WedgeShape) -> i32
        ensures { result ≡ slope_along self w }
    {
        match self {
            Line::Codes => w.b,
            Line::Frames => w.c,
        }
    }

    // What a wedge's plane adds for the axis across, of a code or of a frame that the line's points share.
    fn across(self, w: WedgeShape, p: Point) -> i64
        requires w_value { wedge_right w ≡ true }
        requires p_value { holds everywhere p ≡ true }
        ensures value { result ≡ across self w p }
        ensures bounded { nat_abs result ≤ 34359738368 }
    {
        match self {
            Line::Codes => (w.c as i64) * (p.z as i64),
            Line::Frames => (w.b as i64) * (p.y as i64),
        }
    }
}

// The places lo..=hi of a line; none when lo exceeds hi.
#[derive(Clone, Copy, PartialEq, Eq, Debug)]
pub struct Stretch {
    pub lo: u64,
    pub hi: u64,
}

impl Stretch {
    fn nothing() -> Stretch
        ensures { Along (λ v. false) result }
    {
        Stretch { lo: 1, hi: 0 }
    }

    fn everything() -> Stretch
        ensures { Along (λ v. true) result }
    {
        Stretch { lo: 0, hi: LAST }
    }

    pub fn has(self, place: u64) -> bool
        ensures { result ≡ between self place }
    {
        (self.lo <= place) & (place <= self.hi)
    }

    // What two stretches have in common.
    fn shared(self, other: Stretch) -> Stretch
        ensures { result ≡ shared self other }
    {
        Stretch {
            lo: self.lo.max(other.lo),
            hi: self.hi.min(other.hi),
        }
    }
}

// The place of a value.
pub fn place_of(coordinate: i32) -> u64
    requires { within frames coordinate ≡ true }
    ensures value { result ≡ raised Frame coordinate }
    ensures bounded { result < places }
{
    ((coordinate as i64) + OFFSET) as u64
}

// The places v with s v <= e.
fn half(s: i64, e: i64) -> Stretch
    requires { (nat_abs s ≤ 1000000) × (nat_abs e ≤ 1000000000000) }
    ensures { Along (λ v. le_z (s *ℤ pos v) e) result }
{
    if 0 < s {
        if e < 0 {
            return Stretch::nothing();
        }
        return Stretch {
            lo: 0,
            hi: e.unsigned_abs() / s.unsigned_abs(),
        };
    }
    if 0 <= e {
        return Stretch::everything();
    }
    if s < 0 {
        return Stretch {
            lo: e.unsigned_abs().div_ceil(s.unsigned_abs()),
            hi: LAST,
        };
    }
    Stretch::nothing()
}

// The places whose values y have s y <= e.
fn half_values(s: i32, e: i64) -> Stretch
    requires { (nat_abs s ≤ 65536) × (nat_abs e ≤ 100000000000) }
    ensures { Along (λ v. le_z (s *ℤ value v) e) result }
{
    half(s as i64, e + (s as i64) * OFFSET)
}

// The places of a range's values.
pub fn axis(r: Range) -> Stretch
    requires { (within frames r.lo ≡ true) × (within frames r.hi ≡ true) }
    ensures ends { result ≡ record { lo = raised Frame r.lo; hi = raised Frame r.hi } }
    ensures values { Along (λ v. within (record { lo = r.lo; hi = r.hi }) (value v)) result }
{
    Stretch {
        lo: place_of(r.lo),
        hi: place_of(r.hi),
    }
}

fn box_span(line: Line, b: BoxShape, p: Point) -> Stretch
    requires { box_right b ≡ true }
    ensures { Along (λ v. holds (bounds b) (point_at line p v)) result }
{
    if !line.meets(b, p) {
        return Stretch::nothing();
    }
    axis(line.range(b))
}

// d - (ax + cz) along the codes, d - (ax + by) along the frames
fn plane_left(line: Line, w: WedgeShape, p: Point) -> i64
    requires w_value { wedge_right w ≡ true }
    requires p_value { holds everywhere p ≡ true }
    ensures value { result ≡ left_along line w p }
    ensures bounded { nat_abs result ≤ 100000000000 }
{
    (w.d as i64) - ((w.a as i64) * (p.x as i64) + line.across(w, p))
}

// The places of the box's range that are on the plane's side.
fn wedge_span(line: Line, w: WedgeShape, p: Point) -> Stretch
    requires w_value { wedge_right w ≡ true }
    requires p_value { holds everywhere p ≡ true }
    ensures { Along (λ v. inside_wedge w (point_at line p v)) result }
{
    if !line.meets(w.bounds, p) {
        return Stretch::nothing();
    }
    axis(line.range(w.bounds)).shared(half_values(line.slope(w), plane_left(line, w, p)))
}

// The greatest m with r2 m² <= room, at most top, by halving between one that fits and one that does not.
// A radius is at most 4096, so that 12 halvings do; `isqrt` of room / r2 takes 32, and the division.
fn root(r2: u64, top: u64, room: u64) -> u64
    requires r2_bound { (r2 ≤ 16777216) × (top ≤ 4096) }
    requires room_bound { room < r2 * ((top + 1) * (top + 1)) }
    ensures root { Root r2 room result }
    ensures bounded { result ≤ 4096 }
{
    let mut fits: u64 = 0;
    let mut over: u64 = top + 1;
    while fits + 1 < over {
        let m = fits + (over - fits) / 2;
        if r2 * (m * m) <= room {
            fits = m;
        } else {
            over = m;
        }
    }
    fits
}

// The places at most m from place c.
fn near(c: u64, m: u64) -> Stretch
    requires { (c < places) × (m ≤ 4096) }
    ensures { result ≡ near c m }
{
    Stretch {
        lo: c.saturating_sub(m),
        hi: c + m,
    }
}

// rx²ry² - ry²(x - cx)²
fn ellipse_left(d: DrumShape, p: Point) -> i64
    requires d_value { drum_right d ≡ true }
    requires p_value { holds everywhere p ≡ true }
    ensures value { result ≡ ellipse_left d.cx d.rx d.ry p.x }
    ensures bounded { nat_abs result ≤ 1000000000000000000 }
{
    let dx = (p.x as i64) - (d.cx as i64);
    let u = (d.rx as i64) * (d.rx as i64);
    let v = (d.ry as i64) * (d.ry as i64);
    u * v - v * (dx * dx)
}

fn radius(r: i32) -> u64
    requires { within radii r ≡ true }
    ensures value { result ≡ nat_abs r }
    ensures bounded { result ≤ 4096 }
{
    r.unsigned_abs() as u64
}

// The places inside an ellipse of a column in its reach.
fn ellipse(d: DrumShape, p: Point) -> Stretch
    requires d_value { drum_right d ≡ true }
    requires p_value { holds everywhere p ≡ true }
    requires in_reach { within (box_of (primitive.Drum d)).x p.x ≡ true }
    ensures { Along (λ v. in_ellipse d.cx d.cy d.rx d.ry p.x (value v)) result }
{
    let left = ellipse_left(d, p);
    let a = radius(d.rx);
    near(
        place_of(d.cy),
        root(a * a, radius(d.ry), left.unsigned_abs()),
    )
}

fn drum_codes(d: DrumShape, p: Point) -> Stretch
    requires d_value { drum_right d ≡ true }
    requires p_value { holds everywhere p ≡ true }
    ensures { Along (λ v. inside_drum d (code_point p v)) result }
{
    let bounds = solid::box_of(Primitive::Drum(d));
    if !Line::Codes.meets(bounds, p) {
        return Stretch::nothing();
    }
    ellipse(d, p)
}

// The places of a column on the side >= 0 of an edge: those with (ax - bx) y <= the side at code 0.
fn edge(a: Corner, b: Corner, p: Point) -> Stretch
    requires corners_value { (corner_right a ≡ true) × (corner_right b ≡ true) }
    requires p_value { holds everywhere p ≡ true }
    ensures { Along (λ v. le_z (pos 0) (side a b p.x (value v))) result }
{
    half_values(a.x - b.x, solid::side(a, b, p.x, 0))
}

// The places of a column on the side >= 0 of three edges.
fn edges(t: TriangleShape, p: Point) -> Stretch
    requires t_value { corners_right t ≡ true }
    requires p_value { holds everywhere p ≡ true }
    ensures { Along (λ v. ahead t.first t.second t.third p.x (value v)) result }
{
    let two = edge(t.second, t.third, p).shared(edge(t.third, t.first, p));
    edge(t.first, t.second, p).shared(two)
}

fn beside_triangle(t: TriangleShape, p: Point) -> bool
    ensures { result ≡ beside (box_of (primitive.Triangle t)) p }
{
    let columns = Range::around(t.first.x, t.second.x, t.third.x);
    let frames = Range {
        lo: t.zlo,
        hi: t.zhi,
    };
    columns.contains(p.x) & frames.contains(p.z)
}

// Inside, all sides are >= 0 if the corners run one way round; if they run the other way, with two of them exchanged.
fn triangle_codes(t: TriangleShape, p: Point) -> Stretch
    requires t_value { triangle_right t ≡ true }
    requires p_value { holds everywhere p ≡ true }
    ensures { Along (λ v. inside_triangle t (code_point p v)) result }
{
    if !beside_triangle(t, p) {
        return Stretch::nothing();
    }
    if 0 < solid::side(t.first, t.second, t.third.x, t.third.y) {
        return edges(t, p);
    }
    edges(
        TriangleShape {
            first: t.second,
            second: t.first,
            ..t
        },
        p,
    )
}

// The frames of a range where a place is held, and none where it is not.
fn frames_if(held: bool, r: Range) -> Stretch
    requires { (within frames r.lo ≡ true) × (within frames r.hi ≡ true) }
    ensures { Along (λ v. within (record { lo = r.lo; hi = r.hi }) (value v) && held) result }
{
    if held {
        return axis(r);
    }
    Stretch::nothing()
}

fn drum_span(line: Line, d: DrumShape, p: Point) -> Stretch
    requires d_value { drum_right d ≡ true }
    requires p_value { holds everywhere p ≡ true }
    ensures { Along (λ v. inside_drum d (point_at line p v)) result }
{
    match line {
        Line::Codes => drum_codes(d, p),
        Line::Frames => frames_if(
            solid::in_ellipse(d, p),
            Range {
                lo: d.zlo,
                hi: d.zhi,
            },
        ),
    }
}

fn triangle_span(line: Line, t: TriangleShape, p: Point) -> Stretch
    requires t_value { triangle_right t ≡ true }
    requires p_value { holds everywhere p ≡ true }
    ensures { Along (λ v. inside_triangle t (point_at line p v)) result }
{
    match line {
        Line::Codes => triangle_codes(t, p),
        Line::Frames => frames_if(
            solid::in_corners(t, p),
            Range {
                lo: t.zlo,
                hi: t.zhi,
            },
        ),
    }
}

// What a primitive holds of a line through a point. Its kind is asked before the line's: it has just been read from a row.
pub fn solid_span(line: Line, s: Primitive, p: Point) -> Stretch
    requires s_value { solid_right s ≡ true }
    requires p_value { holds everywhere p ≡ true }
    ensures { Along (λ v. inside_solid s (point_at line p v)) result }
{
    match s {
        Primitive::Box(b) => box_span(line, b, p),
        Primitive::Wedge(w) => wedge_span(line, w, p),
        Primitive::Drum(d) => drum_span(line, d, p),
        Primitive::Triangle(t) => triangle_span(line, t, p),
    }
}
