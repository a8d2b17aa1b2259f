// Searching a screenful: frames that lie end to end, one after the other, by a list that is accepted once.

#![tactic(auto)]

ghost use Rattle.std.specs.Prelude.{◌+◌, ◌*◌, ◌^◌, ◌≤◌, ◌<◌, [], ◌∷◌, ◌≡◌, length, take, drop};
ghost use Rattle.std.proofs.Math.Option.{none};
ghost use Rattle.std.proofs.lemmas.List.Edits.{sets};
ghost use Rattle.rules.specs.Rules.{number_of};
ghost use Rattle.rules.specs.Screen.{most_frames, frames_refusal, later, triple_words, triple_of};
ghost use Rattle.rules.specs.ListCalls.{ListSearched, screen_triples, ScreenSearched};
ghost use Rattle.rules.specs.Told.{told_searched};
ghost use Rattle.laws.specs.Checking.{checked_by};
ghost use Rattle.says.specs.Checks.{Accepted};
ghost use Rattle.screen.specs.Places.{Alike};
ghost use Rattle.screen.specs.Shape.{shape_refusal};
ghost use Rattle.screen.specs.Triples.{Small};

use rules::{Place, Refusal, Rule, Searched};

// The three words at a position.
fn put_words(triples: &mut [u32], at: usize, state: u32, value: u32, count: u32)
    requires { at + triple_words ≤ length triples.old }
    ensures { triples.new ≡ sets triples.old at (state ∷ value ∷ count ∷ []) }
{
    triples[at] = state;
    triples[at + 1] = value;
    triples[at + 2] = count;
}

// The first word of a frame that is refused.
fn refused_state(rule: Rule) -> u32
    ensures { result ≡ 100 + number_of rule }
{
    (100 + rule.number()) as u32
}

// What the search of a frame answers, in three words.
fn put_triple(triples: &mut [u32], at: usize, searched: Searched)
    requires triple_words_in_bounds { at + triple_words ≤ length triples.old }
    requires small { Small (told_searched searched) }
    ensures { triples.new ≡ sets triples.old at (triple_of (told_searched searched)) }
{
    match searched {
        Searched::Clear => put_words(triples, at, 0, 0, 0),
        Searched::Hit { first, count } => put_words(triples, at, 1, first as u32, count as u32),
        Searched::Refused(refusal) => {
            let state = refused_state(refusal.rule);
            put_words(triples, at, state, refusal.value as u32, 0)
        }
    }
}

// The place of the frame that comes j later. A number past the range stays as it is: it is refused alike, and 32 bits might not hold the sum.
fn later(place: Place, j: usize) -> Place
    requires { j < most_frames }
    ensures { Alike result (later place j) }
{
    if rules::GREATEST_FRAME < place.frame {
        return place;
    }
    Place {
        frame: place.frame + (j as i32),
        ..place
    }
}

// Where frame j starts among the codes: the frames lie end to end.
fn start_of(j: usize, size: usize) -> usize
    requires { j * size < 2 ^ 64 }
    ensures { result ≡ j * size }
{
    j * size
}

// Frame j of those that have so many samples each, by its part of the codes.
fn search_frame(
    table: &[i32],
    list: &[u64],
    codes: &[i16],
    size: usize,
    j: usize,
    place: Place,
) -> Searched
    requires accepted { Accepted table.now list.now }
    requires j_lt_most_frames { (j < most_frames) × ((j + 1) * size ≤ length codes.now) }
    ensures { ListSearched table.now list.now (take size (drop (j * size) codes.now)) (later place j) result }
{
    let start = start_of(j, size);
    let end = start_of(j + 1, size);
    let place = later(place, j);
    answer::search_by(table, list, &codes[start..end], place)
}

// Three words for each frame.
fn put_triples(
    table: &[i32],
    list: &[u64],
    codes: &[i16],
    frames: usize,
    place: Place,
    triples: &mut [u32],
)
    requires accepted { Accepted table.now list.now }
    requires frames_value { frames_refusal codes.now frames ≡ none }
    requires frames_in_bounds { triple_words * frames ≤ length triples.old }
    ensures { triples.new ≡ sets triples.old 0 (screen_triples table.now list.now codes.now frames place) }
{
    let size = codes.len() / frames;
    for j in 0..frames {
        let searched = search_frame(table, list, codes, size, j, place);
        put_triple(triples, rules::TRIPLE_WORDS * j, searched);
    }
}

// There is a frame, there are not too many, the codes divide evenly, and there is room.
fn check_screen(codes: &[i16], frames: usize, room: usize) -> Result<(), Refusal>
    ensures { result ≡ checked_by (shape_refusal codes.now frames room) }
{
    if (frames == 0) | (rules::MOST_FRAMES < frames) {
        return Err(Refusal::new(Rule::Frame, 0));
    }
    let needed = rules::TRIPLE_WORDS * frames;
    table::refuse_if(codes.len() % frames != 0, Rule::Frame, 0)?;
    table::refuse_unless(needed <= room, Rule::Room, needed)
}

// Table and list are accepted: the shape and the room, then the triples.
fn search_frames(
    table: &[i32],
    list: &[u64],
    codes: &[i16],
    frames: usize,
    place: Place,
    triples: &mut [u32],
) -> Result<usize, Refusal>
    requires { Accepted table.now list.now }
    ensures { ScreenSearched table.now list.now codes.now frames place triples.old triples.new result }
{
    check_screen(codes, frames, triples.len())?;
    put_triples(table, list, codes, frames, place, triples);
    Ok(rules::TRIPLE_WORDS * frames)
}

pub fn list_search_frames(
    table: &[i32],
    list: &[u64],
    codes: &[i16],
    frames: usize,
    place: Place,
    triples: &mut [u32],
) -> Result<usize, Refusal>
    ensures { ScreenSearched table.now list.now codes.now frames place triples.old triples.new result }
{
    accept::check_both(table, list)?;
    search_frames(table, list, codes, frames, place, triples)
}
