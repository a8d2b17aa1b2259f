// Rectangles of columns and codes on which a primitive's answer does not change: the answer at one of their points is that of all.

#![tactic(auto)]

ghost use Rattle.std.specs.Prelude.{◌≤◌, ◌<◌, true, ◌≡◌};
ghost use Rattle.rules.specs.declared.Axis.TheVariants.{Frame};
ghost use Rattle.rules.specs.Boxes.{holds, everywhere};
ghost use Rattle.rules.specs.Inside.{bounds};
ghost use Rattle.rules.specs.ListWords.{raised};
ghost use Rattle.laws.specs.Sound.{solid_right};
ghost use Rattle.span.specs.Along.{places};
ghost use Rattle.calm.specs.Calms.{edges_of, Ranged, In, Narrowed, NarrowedBy};

use rules::{BoxShape, Point, Primitive};
use span::Stretch;

// Columns up to `until`, codes from `floor` to `roof`.
#[derive(Clone, Copy, PartialEq, Eq, Debug)]
pub struct Rect {
    pub until: u64,
    pub floor: u64,
    pub roof: u64,
}

// The columns and codes of a primitive's box, in places; and how far around the point its answer stays within its box.
#[derive(Clone, Copy, PartialEq, Eq, Debug)]
pub struct Edges {
    pub columns: Stretch,
    pub codes: Stretch,
    pub margin: u64,
}

// The rectangle, narrowed to where the primitive's answer does not change.
fn narrow(e: Edges, x: u64, v: u64, r: Rect) -> Rect
    requires here { In x v r }
    requires below_places { (x < places) × ((v < places) × (e.codes.hi < places)) }
    requires margin_bound { e.margin ≤ places }
    ensures { Narrowed e x v r result }
{
    if e.codes.hi < v {
        return Rect {
            floor: r.floor.max(e.codes.hi + 1),
            ..r
        };
    }
    if v < e.codes.lo {
        return Rect {
            roof: r.roof.min(e.codes.lo - 1),
            ..r
        };
    }
    if e.columns.hi < x {
        return r;
    }
    if x < e.columns.lo {
        return Rect {
            until: r.until.min(e.columns.lo - 1),
            ..r
        };
    }
    Rect {
        until: r.until.min(e.columns.hi.min(x + e.margin)),
        floor: r.floor.max(e.codes.lo.max(v.saturating_sub(e.margin))),
        roof: r.roof.min(e.codes.hi.min(v + e.margin)),
    }
}

fn edges_of(b: BoxShape, margin: u64) -> Edges
    requires { Ranged (bounds b) }
    ensures { result ≡ edges_of b margin }
{
    Edges {
        columns: span::axis(solid::columns(b)),
        codes: span::axis(solid::codes(b)),
        margin,
    }
}

// The rectangle, narrowed by one primitive: by none of a frame that it has not.
pub fn narrow_by(s: Primitive, p: Point, r: Rect) -> Rect
    requires s_value { solid_right s ≡ true }
    requires p_value { holds everywhere p ≡ true }
    requires fact { In (raised Frame p.x) (raised Frame p.y) r }
    ensures { NarrowedBy s p r result }
{
    let b = solid::box_of(s);
    // before the frame is asked for, so that a kind's box and margin are worked out in one go
    let e = edges_of(b, margin::margin(s, p));
    if !solid::frames(b).contains(p.z) {
        return r;
    }
    narrow(e, span::place_of(p.x), span::place_of(p.y), r)
}
