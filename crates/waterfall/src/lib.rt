// The waterfall picture of a list: at each place of a rectangle the newest frame of the list's window, by the walk along the frames of the place.

#![tactic(auto)]

ghost use Rattle.std.specs.Prelude.{ℕ, ◌+◌, ◌*◌, ◌≤◌, ◌<◌, true, ◌≡◌, pos, ◌+ℤ◌, ◌-ℤ◌, length};
ghost use Rattle.std.proofs.lemmas.List.Edits.{sets};
ghost use Rattle.ground.specs.Lists.{first_of};
ghost use Rattle.rules.specs.Boxes.{holds, everywhere, window_box};
ghost use Rattle.rules.specs.ListCalls.{waterfall, PictureDrawn};
ghost use Rattle.rules.specs.ListInside.{inside_list};
ghost use Rattle.rules.specs.ListWords.{list_window};
ghost use Rattle.rules.specs.Ranges.{within, size_of, columns, codes};
ghost use Rattle.rules.specs.Table.{primitives};
ghost use Rattle.rules.specs.Waterfall.{most_side, columns_of, codes_of, picture_words, side_refusals, rectangle_refusal, place_word};
ghost use Rattle.laws.specs.Checking.{checked_by};
ghost use Rattle.laws.specs.Drawing.{Sized, Drawable, words_from, rows_from};
ghost use Rattle.laws.specs.SoundList.{SoundList};
ghost use Rattle.says.specs.Checks.{Accepted};
ghost use Rattle.waterfall.specs.Drawing.{shape_refusal};

use along::Entries;
use rules::{Axis, Point, Rectangle, Refusal, Rule, Window};
use says::Asked;
use span::Line;

// How far hi is above lo. 32 bits might not hold it.
fn above(lo: i32, hi: i32) -> i64
    ensures { result ≡ hi -ℤ lo }
{
    (hi as i64) - (lo as i64)
}

// A side lo..hi of a rectangle, of which lo is bound i, in a window's least..most.
fn check_side(least: i32, most: i32, lo: i32, hi: i32, i: usize) -> Result<(), Refusal>
    requires { i ≤ 2 }
    ensures { result ≡ checked_by (first_of (side_refusals (record { lo = least; hi = most }) (record { lo = lo; hi = hi }) i)) }
{
    table::refuse_unless(window::between(least, lo, most), Rule::Bound, i)?;
    table::refuse_unless(
        window::between(least, hi, most) & ((lo <= hi) & (above(lo, hi) < rules::MOST_SIDE)),
        Rule::Bound,
        i + 1,
    )
}

fn check_rectangle(w: Window, q: Rectangle) -> Result<(), Refusal>
    ensures { result ≡ checked_by (rectangle_refusal (window_box w) q) }
{
    check_side(w.xlo, w.xhi, q.xlo, q.xhi, 0)?;
    check_side(w.ylo, w.yhi, q.ylo, q.yhi, 2)
}

// How many columns or codes a side has.
fn size(lo: i32, hi: i32) -> usize
    requires { Sized (record { lo = lo; hi = hi }) }
    ensures value { result ≡ size_of (record { lo = lo; hi = hi }) }
    ensures bounded { result ≤ most_side }
{
    (above(lo, hi) as usize) + 1
}

// How many words a picture has.
fn words_of(q: Rectangle) -> usize
    requires { Sized (columns_of q) × Sized (codes_of q) }
    ensures { result ≡ picture_words q }
{
    size(q.xlo, q.xhi) * size(q.ylo, q.yhi)
}

// The rectangle, then the room.
fn check_picture(list: &[u64], q: Rectangle, room: usize) -> Result<(), Refusal>
    requires { SoundList list.now }
    ensures { result ≡ checked_by (shape_refusal (list_window list.now) q room) }
{
    check_rectangle(layout::window_of(list), q)?;
    let needed = words_of(q);
    table::refuse_unless(needed <= room, Rule::Room, needed)
}

// The word of the place in a point's column and code: a list's header has its frames in places.
fn newest_at(table: &[i32], list: &[u64], p: Point, entries: &mut Entries) -> i32
    requires accepted { Accepted table.now list.now }
    requires p_value { holds everywhere p ≡ true }
    ensures { result ≡ place_word (inside_list (primitives table.now) list.now) (list_window list.now).z p.x p.y }
{
    let from = list[rules::LOWEST_FRAME_WORD];
    let to = list[rules::HIGHEST_FRAME_WORD] + 1;
    let past = along::highest_inside(Asked::List, table, list, Line::Frames, p, from, to, entries);
    if past == from {
        return rules::NO_FRAME;
    }
    layout::lower(Axis::Frame, past - 1)
}

// The words of one row, columns rising, from position `at` on.
fn put_row(
    table: &[i32],
    list: &[u64],
    xlo: i32,
    y: i32,
    width: usize,
    picture: &mut [i32],
    at: usize,
    entries: &mut Entries,
)
    requires accepted { Accepted table.now list.now }
    requires columns_in_range { (i : ℕ) → i < width → within columns (xlo +ℤ pos i) ≡ true }
    requires y_value { within codes y ≡ true }
    requires width_le_most_side { (width ≤ most_side) × (at + width ≤ length picture.old) }
    ensures { picture.new ≡ sets picture.old at (words_from (inside_list (primitives table.now) list.now) (list_window list.now).z xlo y width) }
{
    for i in 0..width {
        let p = Point {
            x: xlo + (i as i32),
            y,
            z: 0,
        };
        picture[at + i] = newest_at(table, list, p, entries);
    }
}

// Row by row from the highest code down.
fn put_rows(
    table: &[i32],
    list: &[u64],
    xlo: i32,
    yhi: i32,
    width: usize,
    height: usize,
    picture: &mut [i32],
    entries: &mut Entries,
)
    requires accepted { Accepted table.now list.now }
    requires columns_in_range { (i : ℕ) → i < width → within columns (xlo +ℤ pos i) ≡ true }
    requires codes_in_range { (j : ℕ) → j < height → within codes (yhi -ℤ pos j) ≡ true }
    requires width_le_most_side { (width ≤ most_side) × ((height ≤ most_side) × (height * width ≤ length picture.old)) }
    ensures { picture.new ≡ sets picture.old 0 (rows_from (inside_list (primitives table.now) list.now) (list_window list.now).z xlo yhi width height) }
{
    for j in 0..height {
        let y = yhi - (j as i32);
        put_row(table, list, xlo, y, width, picture, j * width, entries);
    }
}

// The whole picture.
fn put_picture(table: &[i32], list: &[u64], q: Rectangle, picture: &mut [i32])
    requires accepted { Accepted table.now list.now }
    requires drawable { Drawable (list_window list.now) q }
    requires q_in_bounds { picture_words q ≤ length picture.old }
    ensures { picture.new ≡ sets picture.old 0 (waterfall table.now list.now q) }
{
    let mut entries = Entries::new();
    let width = size(q.xlo, q.xhi);
    let height = size(q.ylo, q.yhi);
    put_rows(
        table,
        list,
        q.xlo,
        q.yhi,
        width,
        height,
        picture,
        &mut entries,
    );
}

// Table and list are accepted: the rectangle and the room, then the words.
fn draw(table: &[i32], list: &[u64], q: Rectangle, picture: &mut [i32]) -> Result<usize, Refusal>
    requires { Accepted table.now list.now }
    ensures { PictureDrawn table.now list.now q picture.old picture.new result }
{
    check_picture(list, q, picture.len())?;
    put_picture(table, list, q, picture);
    Ok(words_of(q))
}

pub fn list_waterfall(
    table: &[i32],
    list: &[u64],
    rectangle: Rectangle,
    picture: &mut [i32],
) -> Result<usize, Refusal>
    ensures { PictureDrawn table.now list.now rectangle picture.old picture.new result }
{
    accept::check_both(table, list)?;
    draw(table, list, rectangle, picture)
}
