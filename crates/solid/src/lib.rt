// What there is to know of a primitive: whether a point is inside it, and its box. Exact over the whole range: products and sums are taken in 64 bits.

#![tactic(auto)]

ghost use Rattle.std.specs.Prelude.{◌≤◌, true, ◌≡◌, nat_abs, ◌+ℤ◌, ◌-ℤ◌, ◌*ℤ◌};
ghost use Rattle.rules.specs.declared.Primitive.TheVariants as primitive;
ghost use Rattle.rules.specs.Ranges.{within, lesser, greater, around, columns, codes, frames};
ghost use Rattle.rules.specs.Boxes.{holds, everywhere};
ghost use Rattle.rules.specs.Fields.{slopes, radii, wedge_right, drum_right, corner_right, corners_right, triangle_right};
ghost use Rattle.rules.specs.Inside.{bounds, half_space, square, in_ellipse, one_sided, inside_wedge, inside_drum, inside_triangle, inside_solid};
ghost use Rattle.rules.specs.Products.{box_of};
ghost use Rattle.rules.specs.Sides.{side};
ghost use Rattle.laws.specs.Sound.{solid_right};

use rules::{BoxShape, Corner, DrumShape, Point, Primitive, TriangleShape, WedgeShape};

// The whole numbers lo..=hi.
#[derive(Clone, Copy, PartialEq, Eq, Debug)]
pub struct Range {
    pub lo: i32,
    pub hi: i32,
}

impl Range {
    // From the least of three numbers to the greatest.
    pub fn around(a: i32, b: i32, c: i32) -> Range
        ensures least { result.lo ≡ (around a b c).lo }
        ensures most { result.hi ≡ (around a b c).hi }
    {
        Range {
            lo: a.min(b).min(c),
            hi: a.max(b).max(c),
        }
    }

    pub fn contains(self, v: i32) -> bool
        ensures { result ≡ within (record { lo = self.lo; hi = self.hi }) v }
    {
        (self.lo <= v) & (v <= self.hi)
    }
}

// The columns of a box, its codes, its frames.
pub fn columns(b: BoxShape) -> Range
    ensures { result ≡ record { lo = b.xlo; hi = b.xhi } }
{
    Range {
        lo: b.xlo,
        hi: b.xhi,
    }
}

pub fn codes(b: BoxShape) -> Range
    ensures { result ≡ record { lo = b.ylo; hi = b.yhi } }
{
    Range {
        lo: b.ylo,
        hi: b.yhi,
    }
}

pub fn frames(b: BoxShape) -> Range
    ensures { result ≡ record { lo = b.zlo; hi = b.zhi } }
{
    Range {
        lo: b.zlo,
        hi: b.zhi,
    }
}

pub fn in_box(b: BoxShape, p: Point) -> bool
    ensures { result ≡ holds (bounds b) p }
{
    columns(b).contains(p.x) & (codes(b).contains(p.y) & frames(b).contains(p.z))
}

// ax + by + cz <= d
fn half_space(w: WedgeShape, p: Point) -> bool
    requires w_value { wedge_right w ≡ true }
    requires p_value { holds everywhere p ≡ true }
    ensures { result ≡ half_space w.a w.b w.c w.d p.x p.y p.z }
{
    (w.a as i64) * (p.x as i64) + (w.b as i64) * (p.y as i64) + (w.c as i64) * (p.z as i64)
        <= (w.d as i64)
}

// ry²(x - cx)² + rx²(y - cy)² - rx²ry²: above 0 out of the ellipse.
pub fn past_ellipse(d: DrumShape, p: Point) -> i64
    requires centre_value { (within columns d.cx ≡ true) × (within codes d.cy ≡ true) }
    requires radii_value { (within radii d.rx ≡ true) × (within radii d.ry ≡ true) }
    requires place_value { (within columns p.x ≡ true) × (within codes p.y ≡ true) }
    ensures value { result ≡ square d.ry *ℤ square (p.x -ℤ d.cx) +ℤ square d.rx *ℤ square (p.y -ℤ d.cy) -ℤ square d.rx *ℤ square d.ry }
    ensures bounded { nat_abs result ≤ 1000000000000000000 }
{
    let dx = (p.x as i64) - (d.cx as i64);
    let dy = (p.y as i64) - (d.cy as i64);
    let u = (d.rx as i64) * (d.rx as i64);
    let v = (d.ry as i64) * (d.ry as i64);
    v * (dx * dx) + u * (dy * dy) - u * v
}

pub fn in_ellipse(d: DrumShape, p: Point) -> bool
    requires centre_value { (within columns d.cx ≡ true) × (within codes d.cy ≡ true) }
    requires radii_value { (within radii d.rx ≡ true) × (within radii d.ry ≡ true) }
    requires place_value { (within columns p.x ≡ true) × (within codes p.y ≡ true) }
    ensures { result ≡ in_ellipse d.cx d.cy d.rx d.ry p.x p.y }
{
    past_ellipse(d, p) <= 0
}

fn in_wedge(w: WedgeShape, p: Point) -> bool
    requires w_value { wedge_right w ≡ true }
    requires p_value { holds everywhere p ≡ true }
    ensures { result ≡ inside_wedge w p }
{
    in_box(w.bounds, p) && half_space(w, p)
}

fn in_drum(d: DrumShape, p: Point) -> bool
    requires d_value { drum_right d ≡ true }
    requires p_value { holds everywhere p ≡ true }
    ensures { result ≡ inside_drum d p }
{
    let frames = Range {
        lo: d.zlo,
        hi: d.zhi,
    };
    frames.contains(p.z) && in_ellipse(d, p)
}

// (ax - x)(by - y) - (bx - x)(ay - y): the side of the edge from a to b that a point is on. The point may be a `Point`'s or a `Corner`'s.
pub fn side(a: Corner, b: Corner, x: i32, y: i32) -> i64
    requires a_value { (corner_right a ≡ true) × (corner_right b ≡ true) }
    requires x_value { (within columns x ≡ true) × (within codes y ≡ true) }
    ensures { result ≡ side a b x y }
{
    ((a.x - x) as i64) * ((b.y - y) as i64) - ((b.x - x) as i64) * ((a.y - y) as i64)
}

// The sides of three edges are all >= 0 or all <= 0.
fn one_sided(u: i64, v: i64, w: i64) -> bool
    ensures { result ≡ one_sided u v w }
{
    ((0 <= u) & ((0 <= v) & (0 <= w))) | ((u <= 0) & ((v <= 0) & (w <= 0)))
}

// On no edge's wrong side.
pub fn in_corners(t: TriangleShape, p: Point) -> bool
    requires t_value { corners_right t ≡ true }
    requires place_value { (within columns p.x ≡ true) × (within codes p.y ≡ true) }
    ensures { result ≡ one_sided (side t.first t.second p.x p.y) (side t.second t.third p.x p.y) (side t.third t.first p.x p.y) }
{
    let a = t.first;
    let b = t.second;
    let c = t.third;
    one_sided(
        side(a, b, p.x, p.y),
        side(b, c, p.x, p.y),
        side(c, a, p.x, p.y),
    )
}

fn in_triangle(t: TriangleShape, p: Point) -> bool
    requires t_value { triangle_right t ≡ true }
    requires p_value { holds everywhere p ≡ true }
    ensures { result ≡ inside_triangle t p }
{
    let frames = Range {
        lo: t.zlo,
        hi: t.zhi,
    };
    frames.contains(p.z) && in_corners(t, p)
}

pub fn in_solid(s: Primitive, p: Point) -> bool
    requires s_value { solid_right s ≡ true }
    requires p_value { holds everywhere p ≡ true }
    ensures { result ≡ inside_solid s p }
{
    match s {
        Primitive::Box(b) => in_box(b, p),
        Primitive::Wedge(w) => in_wedge(w, p),
        Primitive::Drum(d) => in_drum(d, p),
        Primitive::Triangle(t) => in_triangle(t, p),
    }
}

fn triangle_box(t: TriangleShape) -> BoxShape
    ensures { bounds result ≡ box_of (primitive.Triangle t) }
{
    let a = t.first;
    let b = t.second;
    let c = t.third;
    let columns = Range::around(a.x, b.x, c.x);
    let codes = Range::around(a.y, b.y, c.y);
    BoxShape {
        xlo: columns.lo,
        xhi: columns.hi,
        ylo: codes.lo,
        yhi: codes.hi,
        zlo: t.zlo,
        zhi: t.zhi,
    }
}

// A primitive's box.
pub fn box_of(s: Primitive) -> BoxShape
    requires { solid_right s ≡ true }
    ensures { bounds result ≡ box_of s }
{
    match s {
        Primitive::Box(b) => b,
        Primitive::Wedge(w) => w.bounds,
        Primitive::Drum(d) => BoxShape {
            xlo: d.cx - d.rx,
            xhi: d.cx + d.rx,
            ylo: d.cy - d.ry,
            yhi: d.cy + d.ry,
            zlo: d.zlo,
            zhi: d.zhi,
        },
        Primitive::Triangle(t) => triangle_box(t),
    }
}
