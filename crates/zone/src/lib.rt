// The public calls. Each takes every input and ends; what it answers, and what it leaves in a lent buffer, is fixed by its record.

#![tactic(auto)]

ghost use Rattle.rules.specs.ListCalls.{ListMade, ListLocated, ListSearched, ScreenSearched, PictureDrawn};
ghost use Rattle.rules.specs.RewriteCall.{TreeRewritten};
ghost use Rattle.rules.specs.TextCalls.{TextRead, TextWritten};
ghost use Rattle.rules.specs.TreeCalls.{TableChecked, TreeLocated, TreeSearched};

use rules::{Place, Point, Rectangle, Refusal, Searched, Window};

// Whether a table is sound, or the first rule that it breaks (1 to 5).
pub fn check_table(table: &[i32]) -> Result<(), Refusal>
    ensures { TableChecked table.now result }
{
    table::check_table(table)
}

// Whether a point is inside the zone, by its tree. Refusals: the table's; 10 for a point out of range.
pub fn tree_point(table: &[i32], point: Point) -> Result<bool, Refusal>
    ensures { TreeLocated table.now point result }
{
    tree::tree_point(table, point)
}

// The first inside sample of a frame and how many there are, by the tree. Refusals: the table's; 12 for the frame.
pub fn tree_search(table: &[i32], samples: &[i16], place: Place) -> Searched
    ensures { TreeSearched table.now samples.now place result }
{
    tree::tree_search(table, samples, place)
}

// Writes the zone's list for a window and says how many words it took; the words beyond stay. Refusals: the table's; 6 for the window;
// 7 with the ways of choosing, where these are over 65,536; 8 with the words needed. A zone that misses the window has a list of 0 products.
pub fn make_list(table: &[i32], window: Window, list: &mut [u64]) -> Result<usize, Refusal>
    ensures { ListMade table.now window list.old list.new result }
{
    list::make_list(table, window, list)
}

// Whether a point is inside a list, for a point of its window. Refusals: the table's; 9 with the first faulty word; 11 with the table's number
// of primitives, where the list was made for another; 10 with the first axis on which the point is out of the list's window.
pub fn list_point(table: &[i32], list: &[u64], point: Point) -> Result<bool, Refusal>
    ensures { ListLocated table.now list.now point result }
{
    answer::list_point(table, list, point)
}

// The first inside sample of a frame and how many there are, by a list. Refusals: the table's; 9 and 11 for the list; 12 for the frame; 10 with
// the first sample out of the list's window.
pub fn list_search(table: &[i32], list: &[u64], samples: &[i16], place: Place) -> Searched
    ensures { ListSearched table.now list.now samples.now place result }
{
    answer::list_search(table, list, samples, place)
}

// Searches up to 500 frames of one length by a list, each as list_search does. They lie end to end in `codes` and all start at place.first; the first
// has the number place.frame, each further one a number greater by one. Writes three words a frame and says how many words that took; the words
// beyond stay: 0 for clear, 1 for a hit, or 100 and the number of the frame's own refusal, which stops no other frame; then the first position, or
// the refusal's value; then the number of inside samples. Refusals of the whole call: the table's; 9 and 11 for the list; 12 with 0 where there is no
// frame, there are over 500, or the codes do not divide evenly; 8 with the words needed.
pub fn list_search_frames(
    table: &[i32],
    list: &[u64],
    codes: &[i16],
    frames: usize,
    place: Place,
    triples: &mut [u32],
) -> Result<usize, Refusal>
    ensures { ScreenSearched table.now list.now codes.now frames place triples.old triples.new result }
{
    screen::list_search_frames(table, list, codes, frames, place, triples)
}

// Writes the waterfall picture of a rectangle of columns and codes, one word a place, row by row from the highest code down, columns rising: the newest
// frame, which is the largest of the list's window at which the point is inside the list, or -2147483648 where there is none. Says how many words that
// took; the words beyond stay. Refusals: the table's; 9 and 11 for the list; 6 with the rectangle's first bad bound, xlo, xhi, ylo, yhi as 0 to 3, that is
// out of the list's window, or a hi that is below its lo or over 127 more; 8 with the words needed.
pub fn list_waterfall(
    table: &[i32],
    list: &[u64],
    rectangle: Rectangle,
    picture: &mut [i32],
) -> Result<usize, Refusal>
    ensures { PictureDrawn table.now list.now rectangle picture.old picture.new result }
{
    waterfall::list_waterfall(table, list, rectangle, picture)
}

// Rewrites the zone's tree into normal form by the procedure of document 000, without pruning, and writes the finished tree, three words a row: 0, a
// primitive's number, 0; or an operation's kind, its left row, its right row. Rows stand in the order left subtree, right subtree, node. Says how many
// words that took; the words beyond stay. The work area is used on the way, and is 0 to its end then. Refusals: the table's; 14 with the number of
// primitives, where it is over 16; 15 with the ways of choosing, where these are over 256; 8 with 24573, where either area has fewer words.
pub fn rewrite_tree(table: &[i32], tree: &mut [i32], work: &mut [i32]) -> Result<usize, Refusal>
    ensures { TreeRewritten table.now tree.old tree.new work.old work.new result }
{
    rewrite::rewrite_tree(table, tree, work)
}

// Reads zone text into a table and says how many words it took; the words beyond stay. Refusals: 13 with the first faulty line, or with 0 where
// there are over 16,384 bytes; the table's; 8 with the words needed.
pub fn read_text(text: &[u8], table: &mut [i32]) -> Result<usize, Refusal>
    ensures { TextRead text.now table.old table.new result }
{
    reading::read_text(text, table)
}

// Writes the text of a table and says how many bytes it took; the bytes beyond stay. Refusals: the table's; 8 with the bytes needed. No text is
// longer than 16,384 bytes.
pub fn write_text(table: &[i32], text: &mut [u8]) -> Result<usize, Refusal>
    ensures { TextWritten table.now text.old text.new result }
{
    writing::write_text(table, text)
}
