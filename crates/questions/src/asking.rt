// The calls, asked and told.
use crate::areas::Area;
use crate::{Held, pictures, rewriting};
use lines::{Fault, Line, answers, numbers, say, say_bytes};
use rules::{Place, Point, Rectangle, Window};

// The most words of a list, bytes of a text and words of triples.
const LIST_WORDS: usize = 256;

const TEXT_BYTES: usize = 512;

const TRIPLE_WORDS: usize = 16;

// A call, with what it is asked.
#[derive(Clone, Copy)]
enum Call {
    CheckTable,
    TreePoint(Point),
    ListPoint(Point),
    Search(Search),
    ListWaterfall {
        rectangle: Rectangle,
        picture: Area<{ pictures::MOST }>,
    },
    RewriteTree {
        tree: Area<{ rewriting::MOST }>,
        work: Area<{ rewriting::MOST }>,
    },
    MakeList(Area<LIST_WORDS>),
    WriteText(Area<TEXT_BYTES>),
    Compare(Window),
}

// A search of the frame that is set, or of a screenful of frames.
#[derive(Clone, Copy)]
enum Search {
    Tree(Place),
    List(Place),
    Frames(Screen),
}

// So many frames end to end, where the first of them stands, and the area of their triples.
#[derive(Clone, Copy)]
struct Screen {
    frames: usize,
    place: Place,
    triples: Area<TRIPLE_WORDS>,
}

// The call of a line, if the line has the numbers of one.
fn call_of(line: Line<'_>) -> Result<Call, Fault> {
    let mut words: [i32; 6] = [0; 6];
    let count = numbers::read_all(line.rest, &mut words)?;
    let call = match (line.word, &words[..count]) {
        (b"check_table", &[]) => Call::CheckTable,
        (b"tree_point", &[x, y, z]) => Call::TreePoint(Point { x, y, z }),
        (b"list_point", &[x, y, z]) => Call::ListPoint(Point { x, y, z }),
        (b"tree_search", &[first, frame]) => Call::Search(Search::Tree(Place { first, frame })),
        (b"list_search", &[first, frame]) => Call::Search(Search::List(Place { first, frame })),
        (b"list_search_frames", &[frames, first, frame, room, of]) => {
            let triples = Area::read(room, of)?;
            Call::Search(Search::Frames(Screen {
                frames: numbers::size_of(frames),
                place: Place { first, frame },
                triples,
            }))
        }
        (b"list_waterfall", &[xlo, xhi, ylo, yhi, room, of]) => {
            let picture = Area::read(room, of)?;
            let rectangle = Rectangle { xlo, xhi, ylo, yhi };
            Call::ListWaterfall { rectangle, picture }
        }
        (b"rewrite_tree", &[room, of, work_room, work_of]) => {
            let tree = Area::read(room, of)?;
            let work = Area::read(work_room, work_of)?;
            Call::RewriteTree { tree, work }
        }
        (b"make_list", &[room, of]) => Call::MakeList(Area::read(room, of)?),
        (b"write_text", &[room, of]) => Call::WriteText(Area::read(room, of)?),
        (b"compare", &[_, _, _, _, _, _]) => Call::Compare(numbers::window_of(words)),
        _ => return Err(Fault),
    };
    Ok(call)
}

// Makes a list in the first words of a buffer, and tells how that went and what the buffer holds.
fn make_list(rt: &impl Print, table: &[i32], window: Window, area: Area<LIST_WORDS>) {
    let fill = u64::from(answers::FILL);
    let mut list: [u64; LIST_WORDS] = [fill; LIST_WORDS];
    let answer = zone::make_list(table, window, &mut list[..area.room]);
    let written = answers::written(rt, answer);
    answers::buffer(rt, &list[..area.of], written, &fill);
}

// Writes the text of a table into the first bytes of a buffer, and tells how that went and what the buffer holds.
fn write_text(rt: &impl Print, table: &[i32], area: Area<TEXT_BYTES>) {
    let mut text: [u8; TEXT_BYTES] = [b'.'; TEXT_BYTES];
    let answer = zone::write_text(table, &mut text[..area.room]);
    answers::written(rt, answer);
    say(rt, "\n");
    say_bytes(rt, &text[..area.of]);
}

// The list that is set, read into a buffer.
fn list_of<'a>(held: &Held<'_>, words: &'a mut [u64; LIST_WORDS]) -> Result<&'a [u64], Fault> {
    let count = numbers::read_all(held.list, words)?;
    Ok(&words[..count])
}

// Asks the list that is set about a point.
fn ask_list_point(
    rt: &impl Print,
    held: &Held<'_>,
    table: &[i32],
    point: Point,
) -> Result<(), Fault> {
    let mut words: [u64; LIST_WORDS] = [0; LIST_WORDS];
    let list = list_of(held, &mut words)?;
    answers::located(rt, zone::list_point(table, list, point));
    Ok(())
}

// Asks for a picture of the list that is set.
fn ask_waterfall(
    rt: &impl Print,
    held: &Held<'_>,
    table: &[i32],
    rectangle: Rectangle,
    picture: Area<{ pictures::MOST }>,
) -> Result<(), Fault> {
    let mut words: [u64; LIST_WORDS] = [0; LIST_WORDS];
    let list = list_of(held, &mut words)?;
    pictures::draw(rt, table, list, rectangle, picture);
    Ok(())
}

// Searches a screenful into the first words of a buffer, and tells how that went and what the buffer holds.
fn search_frames(rt: &impl Print, table: &[i32], list: &[u64], codes: &[i16], screen: Screen) {
    let Screen {
        frames,
        place,
        triples,
    } = screen;
    let mut words: [u32; TRIPLE_WORDS] = [answers::FILL; TRIPLE_WORDS];
    let lent = &mut words[..triples.room];
    let answer = zone::list_search_frames(table, list, codes, frames, place, lent);
    let written = answers::written(rt, answer);
    answers::buffer(rt, &words[..triples.of], written, &answers::FILL);
}

// Searches, where the list and the frame that are set are right.
fn ask_search(
    rt: &impl Print,
    held: &Held<'_>,
    table: &[i32],
    search: Search,
) -> Result<(), Fault> {
    let mut words: [u64; LIST_WORDS] = [0; LIST_WORDS];
    let list = list_of(held, &mut words)?;
    let mut codes: [i16; 65537] = [0; 65537];
    let count = numbers::read_frame(held.frame, &mut codes)?;
    let samples = &codes[..count];
    match search {
        Search::Tree(place) => {
            answers::searched(rt, zone::tree_search(table, samples, place));
        }
        Search::List(place) => {
            answers::searched(rt, zone::list_search(table, list, samples, place));
        }
        Search::Frames(screen) => search_frames(rt, table, list, samples, screen),
    }
    Ok(())
}

// Asks what a line asks, and tells the answer.
pub fn ask(rt: &impl Print, held: &Held<'_>, table: &[i32], line: Line<'_>) -> Result<(), Fault> {
    match call_of(line)? {
        Call::CheckTable => answers::checked(rt, zone::check_table(table)),
        Call::TreePoint(point) => answers::located(rt, zone::tree_point(table, point)),
        Call::ListPoint(point) => ask_list_point(rt, held, table, point)?,
        Call::Search(search) => ask_search(rt, held, table, search)?,
        Call::ListWaterfall { rectangle, picture } => {
            ask_waterfall(rt, held, table, rectangle, picture)?
        }
        Call::RewriteTree { tree, work } => rewriting::rewrite(rt, table, tree, work),
        Call::MakeList(area) => make_list(rt, table, numbers::read_window(held.window)?, area),
        Call::WriteText(area) => write_text(rt, table, area),
        Call::Compare(window) => comparing::compare(rt, table, window, held.axes)?,
    }
    Ok(())
}
