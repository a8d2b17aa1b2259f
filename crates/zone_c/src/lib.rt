// The public calls for C. Each makes one call of zone and tells its outcome in three numbers; a lent buffer is left as that call leaves it.

#![tactic(auto)]

ghost use Rattle.rules.specs.Told.{told_checked, told_located, told_searched, told_written};
ghost use Rattle.rules.specs.TreeCalls.{TableChecked, TreeLocated, TreeSearched};
ghost use Rattle.rules.specs.ListCalls.{ListMade, ListLocated, ListSearched, ScreenSearched, PictureDrawn};
ghost use Rattle.rules.specs.RewriteCall.{TreeRewritten};
ghost use Rattle.rules.specs.TextCalls.{TextRead, TextWritten};
ghost use Rattle.zone_c.specs.Answered.{Answered};
ghost use Rattle.zone_c.specs.Lent.{point, place};

use answer_c::Answer;
use rules::{Place, Point, Rectangle, Window};

// zone::check_table: whether a table is sound.
#[unsafe(no_mangle)]
pub extern "C" fn lampholly_check(table: &[i32]) -> Answer
    ensures { Answered told_checked (TableChecked table.now) result }
{
    answer_c::tell(zone::check_table(table))
}

// zone::tree_point: whether a point is inside the zone, by its tree.
#[unsafe(no_mangle)]
pub extern "C" fn lampholly_tree_point(table: &[i32], x: i32, y: i32, z: i32) -> Answer
    ensures { Answered told_located (TreeLocated table.now (point x y z)) result }
{
    answer_c::tell(zone::tree_point(table, Point { x, y, z }))
}

// zone::tree_search: the first inside sample of a frame and how many there are, by the tree.
#[unsafe(no_mangle)]
pub extern "C" fn lampholly_tree_search(
    table: &[i32],
    samples: &[i16],
    first: i32,
    frame: i32,
) -> Answer
    ensures { Answered told_searched (TreeSearched table.now samples.now (place first frame)) result }
{
    answer_c::of_searched(zone::tree_search(table, samples, Place { first, frame }))
}

// zone::make_list: writes the zone's list for a window.
#[unsafe(no_mangle)]
pub extern "C" fn lampholly_make_list(table: &[i32], window: Window, list: &mut [u64]) -> Answer
    ensures { Answered told_written (ListMade table.now window list.old list.new) result }
{
    answer_c::tell(zone::make_list(table, window, list))
}

// zone::list_point: whether a point is inside a list.
#[unsafe(no_mangle)]
pub extern "C" fn lampholly_list_point(
    table: &[i32],
    list: &[u64],
    x: i32,
    y: i32,
    z: i32,
) -> Answer
    ensures { Answered told_located (ListLocated table.now list.now (point x y z)) result }
{
    answer_c::tell(zone::list_point(table, list, Point { x, y, z }))
}

// zone::list_search: the first inside sample of a frame and how many there are, by a list.
#[unsafe(no_mangle)]
pub extern "C" fn lampholly_list_search(
    table: &[i32],
    list: &[u64],
    samples: &[i16],
    first: i32,
    frame: i32,
) -> Answer
    ensures { Answered told_searched (ListSearched table.now list.now samples.now (place first frame)) result }
{
    answer_c::of_searched(zone::list_search(table, list, samples, Place { first, frame }))
}

// zone::list_search_frames: three words for each frame of a screenful, by a list.
#[unsafe(no_mangle)]
pub extern "C" fn lampholly_list_search_frames(
    table: &[i32],
    list: &[u64],
    codes: &[i16],
    frames: usize,
    first: i32,
    frame: i32,
    triples: &mut [u32],
) -> Answer
    ensures { Answered told_written (ScreenSearched table.now list.now codes.now frames (place first frame) triples.old triples.new) result }
{
    answer_c::tell(zone::list_search_frames(
        table,
        list,
        codes,
        frames,
        Place { first, frame },
        triples,
    ))
}

// zone::list_waterfall: the newest frame at each place of a rectangle, by a list.
#[unsafe(no_mangle)]
pub extern "C" fn lampholly_list_waterfall(
    table: &[i32],
    list: &[u64],
    rectangle: Rectangle,
    picture: &mut [i32],
) -> Answer
    ensures { Answered told_written (PictureDrawn table.now list.now rectangle picture.old picture.new) result }
{
    answer_c::tell(zone::list_waterfall(table, list, rectangle, picture))
}

// zone::rewrite_tree: the tree in normal form, by the procedure of document 000.
#[unsafe(no_mangle)]
pub extern "C" fn lampholly_rewrite(table: &[i32], tree: &mut [i32], work: &mut [i32]) -> Answer
    ensures { Answered told_written (TreeRewritten table.now tree.old tree.new work.old work.new) result }
{
    answer_c::tell(zone::rewrite_tree(table, tree, work))
}

// zone::read_text: reads zone text into a table.
#[unsafe(no_mangle)]
pub extern "C" fn lampholly_read_text(text: &[u8], table: &mut [i32]) -> Answer
    ensures { Answered told_written (TextRead text.now table.old table.new) result }
{
    answer_c::tell(zone::read_text(text, table))
}

// zone::write_text: writes the text of a table.
#[unsafe(no_mangle)]
pub extern "C" fn lampholly_write_text(table: &[i32], text: &mut [u8]) -> Answer
    ensures { Answered told_written (TextWritten table.now text.old text.new) result }
{
    answer_c::tell(zone::write_text(table, text))
}
