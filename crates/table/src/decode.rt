// Reading the words of a row: its kind, its fields, its children.
ghost use Rattle.std.specs.Prelude.{◌+◌, ◌*◌, ◌<◌, ◌≡◌, T, pos, length};
ghost use Rattle.std.proofs.Math.Option.{some};
ghost use Rattle.std.specs.Int.Signed.{non_neg};
ghost use Rattle.rules.specs.Table.{word_at, box_shape, wedge_shape, drum_shape, corner, triangle_shape, row_at};
ghost use Rattle.laws.specs.Sound.{SoundRow};
ghost use Rattle.table.specs.Reading.{InTable, IsOperation};

use rules::{BoxShape, Corner, DrumShape, Kind, Primitive, Row, TriangleShape, WedgeShape};

// Word k of a row.
pub fn word(table: &[i32], row: usize, k: usize) -> i32
    requires { row * 12 + k < length table.now }
    ensures { result ≡ word_at table.now row k }
{
    table[row * rules::ROW_WORDS + k]
}

pub fn box_at(table: &[i32], row: usize) -> BoxShape
    requires { InTable table.now row }
    ensures { result ≡ box_shape (word_at table.now row) }
{
    BoxShape {
        xlo: word(table, row, 1),
        xhi: word(table, row, 2),
        ylo: word(table, row, 3),
        yhi: word(table, row, 4),
        zlo: word(table, row, 5),
        zhi: word(table, row, 6),
    }
}

pub fn wedge_at(table: &[i32], row: usize) -> WedgeShape
    requires { InTable table.now row }
    ensures { result ≡ wedge_shape (word_at table.now row) }
{
    WedgeShape {
        bounds: box_at(table, row),
        a: word(table, row, 7),
        b: word(table, row, 8),
        c: word(table, row, 9),
        d: word(table, row, 10),
    }
}

pub fn drum_at(table: &[i32], row: usize) -> DrumShape
    requires { InTable table.now row }
    ensures { result ≡ drum_shape (word_at table.now row) }
{
    DrumShape {
        cx: word(table, row, 1),
        cy: word(table, row, 2),
        rx: word(table, row, 3),
        ry: word(table, row, 4),
        zlo: word(table, row, 5),
        zhi: word(table, row, 6),
    }
}

fn corner_at(table: &[i32], row: usize, k: usize) -> Corner
    requires { row * 12 + (k + 1) < length table.now }
    ensures { result ≡ corner (word_at table.now row) k }
{
    Corner {
        x: word(table, row, k),
        y: word(table, row, k + 1),
    }
}

pub fn triangle_at(table: &[i32], row: usize) -> TriangleShape
    requires { InTable table.now row }
    ensures { result ≡ triangle_shape (word_at table.now row) }
{
    TriangleShape {
        first: corner_at(table, row, 1),
        second: corner_at(table, row, 3),
        third: corner_at(table, row, 5),
        zlo: word(table, row, 7),
        zhi: word(table, row, 8),
    }
}

// The row number in a word that is not negative.
pub fn child(table: &[i32], row: usize, k: usize) -> usize
    requires k_in_bounds { row * 12 + k < length table.now }
    requires t { T (non_neg (word_at table.now row k)) }
    ensures { pos result ≡ word_at table.now row k }
{
    word(table, row, k) as usize
}

// An operation on the rows that words 1 and 2 name.
fn operation_at(table: &[i32], row: usize, kind: i32) -> Row
    requires in_table { InTable table.now row }
    requires operation { IsOperation table.now row kind }
    ensures { some result ≡ row_at table.now row }
{
    let left = child(table, row, 1);
    let right = child(table, row, 2);
    match kind {
        3 => Row::Union(left, right),
        4 => Row::Inter(left, right),
        _ => Row::Diff(left, right),
    }
}

// A row that can be read, as its kind says.
pub fn read_row(table: &[i32], row: usize) -> Row
    requires in_table { InTable table.now row }
    requires sound_row { SoundRow table.now row }
    ensures { some result ≡ row_at table.now row }
{
    let kind = word(table, row, 0);
    // Operations first: the rest is then few enough for tests one after the other, which are quicker than a jump by the kind.
    if (3 <= kind) & (kind <= 5) {
        return operation_at(table, row, kind);
    }
    match kind {
        0 => Row::Solid(Primitive::Box(box_at(table, row))),
        1 => Row::Solid(Primitive::Wedge(wedge_at(table, row))),
        2 => Row::Solid(Primitive::Drum(drum_at(table, row))),
        _ => Row::Solid(Primitive::Triangle(triangle_at(table, row))),
    }
}
