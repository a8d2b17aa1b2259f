// The primitives of a sound table, row by row.
ghost use Rattle.std.specs.Prelude.{◌<◌};
ghost use Rattle.rules.specs.Table.{row_count};
ghost use Rattle.laws.specs.Sound.{Sound};
ghost use Rattle.table.specs.Leaves.{LeafAt};

use rules::{Primitive, Row};

// The primitive at a row, if there is one.
pub fn primitive_at(table: &[i32], row: usize) -> Option<Primitive>
    requires sound { Sound table.now }
    requires row_bound { row < row_count table.now }
    ensures { LeafAt table.now row result }
{
    match crate::decode::read_row(table, row) {
        Row::Solid(s) => Some(s),
        Row::Union(..) | Row::Inter(..) | Row::Diff(..) => None,
    }
}
