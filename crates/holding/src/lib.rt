// Which primitives hold a point, and how far around it that stays so. Whoever asks at a point asks here, so that the test of a primitive stands in
// one loop and is compiled once.

#![tactic(auto)]

ghost use Rattle.std.specs.Prelude.{◌+◌, ◌<◌, true, ◌≡◌};
ghost use Rattle.rules.specs.Boxes.{holds, everywhere};
ghost use Rattle.rules.specs.Table.{row_count, primitives_before, primitives};
ghost use Rattle.laws.specs.Sound.{Sound};
ghost use Rattle.holding.specs.Holding.{Holding};

use calm::Rect;
use reach::Gathered;
use rules::Point;

// The primitives that were found to hold the point, and the rectangle on which none of those that were met changes its answer.
#[derive(Clone, Copy)]
pub struct Held {
    pub found: Gathered,
    pub rect: Rect,
}

// One row more: a primitive is tested once.
fn hold_row(table: &[i32], row: usize, p: Point, h: Held) -> Held
    requires sound { Sound table.now }
    requires row_bound { row < row_count table.now }
    requires p_value { holds everywhere p ≡ true }
    requires holding { Holding (primitives_before table.now row) p h }
    ensures { Holding (primitives_before table.now (row + 1)) p result }
{
    match table::primitive_at(table, row) {
        Some(s) => {
            // one right after the other, so that the kind is asked once for both
            let inside = solid::in_solid(s, p);
            let rect = calm::narrow_by(s, p, h.rect);
            Held {
                found: reach::added(h.found, inside),
                rect,
            }
        }
        None => h,
    }
}

// The primitives that hold a point, and where that stays so.
pub fn hold_at(table: &[i32], p: Point) -> Held
    requires sound { Sound table.now }
    requires p_value { holds everywhere p ≡ true }
    ensures { Holding (primitives table.now) p result }
{
    let rows = table::row_count(table);
    let found = Gathered { set: 0, count: 0 };
    let rect = Rect {
        until: span::LAST,
        floor: 0,
        roof: span::LAST,
    };
    let mut h = Held { found, rect };
    for row in 0..rows {
        h = hold_row(table, row, p, h);
    }
    h
}
