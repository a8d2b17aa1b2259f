// Words moved in the work area, for each of the rewrites. A node's word is its operation's number and 32 times the words of its left part,
// so that its right part is found at once; the words of both parts follow it.

#![tactic(auto)]

ghost use Rattle.std.specs.Prelude.{◌+◌, ◌*◌, ◌-◌, ◌<◌, ◌≤◌, ◌≡◌, ◌≢◌, [], ◌∷◌, pos, length, map, MatchOption};
ghost use Rattle.std.proofs.lemmas.List.Edits.{sets};
ghost use Rattle.moves.specs.declared.Operation.{Operation};
ghost use Rattle.moves.specs.Moves.{most_words, operation_number, AreWords, IsWord, Opened, Copied, LeanTo, SplitTo, SwapTo, ShareTo};

// The set operations: 16 and the kind of the row that tells of each.
#[derive(Clone, Copy, PartialEq, Eq, Debug)]
pub enum Operation {
    Union = 19,
    Inter = 20,
    Diff = 21,
}

// A primitive's word is its number, which is less than this.
pub const OPERATIONS: usize = 16;

pub const LEFT_WORDS: usize = 32;

impl Operation {
    // The operation of that number, if there is one.
    pub fn of(number: usize) -> Option<Self>
        ensures { MatchOption result ((operation : Operation) → number ≢ operation_number operation) (λ operation. number ≡ operation_number operation) }
    {
        match number {
            19 => Some(Operation::Union),
            20 => Some(Operation::Inter),
            21 => Some(Operation::Diff),
            _ => None,
        }
    }

    // Its word where the left part has so many words.
    pub fn word(self, left: usize) -> usize
        requires { left ≤ most_words }
        ensures value { result ≡ operation_number self + 32 * left }
        ensures is_word { IsWord result }
    {
        self as usize + LEFT_WORDS * left
    }

    // The kind of the row that tells of it.
    pub fn kind(self) -> usize
        ensures { result ≡ operation_number self - 16 }
    {
        self as usize - OPERATIONS
    }
}

// So many words, one after the other, from `at` on.
pub fn put(w: &mut [i32], at: usize, words: &[usize])
    requires room { at + length words.now ≤ length w.old }
    requires are_words { AreWords words.now }
    ensures { w.new ≡ sets w.old at (map pos words.now) }
{
    for (i, word) in words.iter().enumerate() {
        w[at + i] = *word as i32;
    }
}

// The words from `at` up to `end` move up by k, the last first.
fn make_room(w: &mut [i32], at: usize, k: usize, end: usize)
    requires { (at ≤ end) × (1 ≤ k) × (end + k ≤ length w.old) }
    ensures { Opened w.old w.new at k end }
{
    for i in (at..end).rev() {
        w[i + k] = w[i];
    }
}

// n words at `from` also stand at `to`, which lies past them.
fn copy(w: &mut [i32], from: usize, to: usize, n: usize)
    requires { (from + n ≤ to) × (to + n ≤ length w.old) }
    ensures { Copied w.old w.new from to n }
{
    for i in 0..n {
        w[to + i] = w[from + i];
    }
}

// 1, 4, 6: k X (q Y Z) becomes p (r X Y) Z, where Y has `middle` words.
pub fn lean(w: &mut [i32], at: usize, right: usize, middle: usize, p: Operation, r: Operation)
    requires right_in_bounds { (at + 1 ≤ right) × (right + 1 ≤ length w.old) }
    requires few { right - at + middle ≤ most_words }
    ensures { LeanTo w.old w.new at right middle (operation_number p) (operation_number r) }
{
    let first = right - at - 1;
    make_room(w, at + 1, 1, right);
    put(w, at, &[p.word(first + middle + 1), r.word(first)]);
}

// 2, 3, 5: k X (q Y Z) becomes the union of r X Y and s X Z, where Y has `middle` words; up to where words are in use then.
pub fn split(
    w: &mut [i32],
    at: usize,
    right: usize,
    middle: usize,
    r: Operation,
    s: Operation,
    used: usize,
) -> usize
    requires right_in_bounds { (at + 1 ≤ right) × (right + 1 + middle ≤ used) × (used + (right - at) ≤ length w.old) }
    requires few { right - at + middle ≤ most_words }
    ensures { SplitTo w.old w.new at right middle used (operation_number r) (operation_number s) result }
{
    let first = right - at - 1;
    lean(w, at, right, middle, Operation::Union, r);
    let place = right + 1 + middle;
    make_room(w, place, first + 1, used);
    put(w, place, &[s.word(first)]);
    copy(w, at + 2, place + 1, first);
    used + first + 1
}

// 6.5: the intersection of X - Y and the primitive z becomes that of X and z, less Y; X has `first` words.
pub fn swap(w: &mut [i32], at: usize, first: usize, right: usize, z: usize)
    requires right_in_bounds { (at + 2 + first ≤ right) × (right + 1 ≤ length w.old) }
    requires few { first + 2 ≤ most_words }
    requires is_primitive { z < 16 }
    ensures { SwapTo w.old w.new at first right (pos z) }
{
    let place = at + 2 + first;
    make_room(w, place, 1, right);
    put(w, place, &[z]);
    put(
        w,
        at,
        &[
            Operation::Diff.word(first + 2),
            Operation::Inter.word(first),
        ],
    );
}

// 7, 8: k (X ∪ Y) z, with a primitive z, becomes the union of k X z and k Y z; X has `first` words. Up to where words are in use then.
pub fn share(
    w: &mut [i32],
    at: usize,
    first: usize,
    right: usize,
    k: Operation,
    z: usize,
    used: usize,
) -> usize
    requires right_in_bounds { (at + 2 + first ≤ right) × (right + 1 ≤ used) × (used + 2 ≤ length w.old) }
    requires few { right - at ≤ most_words }
    requires is_primitive { z < 16 }
    ensures { ShareTo w.old w.new at first right (operation_number k) (pos z) used result }
{
    let place = at + 2 + first;
    make_room(w, place, 2, used);
    put(w, place, &[z, k.word(right - place)]);
    put(w, at, &[Operation::Union.word(first + 2), k.word(first)]);
    used + 2
}
