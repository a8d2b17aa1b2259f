// The procedure of document 000 on the work area, which holds the tree in prefix form: a node's word, the words of its left part, those of its right part.

#![tactic(auto)]

ghost use Rattle.std.specs.Prelude.{◌+◌, ◌*◌, ◌<◌};
ghost use Rattle.normal.specs.Held.{HeadAt, LeftAt, StandsAt, TreeAt, NodeAt, Node, OnRight, ByRight, OnLeft, ByLeft, Rewrote, Reduced, Widens, Widened, AgainAt, Normalized};

use moves::Operation::{self, Diff, Inter, Union};

// What stands at a node: a primitive's number, or an operation.
#[derive(Clone, Copy, PartialEq, Eq, Debug)]
pub enum Top {
    Primitive(usize),
    Node(Operation),
}

// What the word at a node says of it.
pub fn head(w: &[i32], at: usize) -> Top
    requires { TreeAt w.now at }
    ensures { HeadAt w.now at result }
{
    let number = w[at] as usize % moves::LEFT_WORDS;
    match Operation::of(number) {
        Some(operation) => Top::Node(operation),
        None => Top::Primitive(number),
    }
}

// How many words its left part has.
pub fn left_words(w: &[i32], at: usize) -> usize
    requires { TreeAt w.now at }
    ensures { LeftAt w.now at result }
{
    w[at] as usize / moves::LEFT_WORDS
}

// Whether that operation stands at a node.
fn stands(w: &[i32], at: usize, operation: Operation) -> bool
    requires { TreeAt w.now at }
    ensures { StandsAt w.now at operation result }
{
    match head(w, at) {
        Top::Node(other) => other == operation,
        Top::Primitive(_) => false,
    }
}

// `w` and `used` stay two parameters: a struct round the lent area would promise its length anew in each clause, which a slice keeps by itself.
// 1 to 6: the right part is a node, q; up to where words are in use then.
fn by_right(
    w: &mut [i32],
    at: usize,
    right: usize,
    k: Operation,
    q: Operation,
    used: usize,
) -> usize
    requires { OnRight w.old at right k q used }
    ensures { ByRight w.old w.new at right k q used result }
{
    let middle = left_words(w, right);
    match (k, q) {
        (Diff, Union) => {
            moves::lean(w, at, right, middle, Diff, Diff);
            used
        }
        (Inter, Union) => moves::split(w, at, right, middle, Inter, Inter, used),
        (Diff, Inter) => moves::split(w, at, right, middle, Diff, Diff, used),
        (Inter, Inter) => {
            moves::lean(w, at, right, middle, Inter, Inter);
            used
        }
        (Diff, Diff) => moves::split(w, at, right, middle, Diff, Inter, used),
        (Inter, Diff) => {
            moves::lean(w, at, right, middle, Diff, Inter);
            used
        }
        // No call has a union here: `rewrite` leaves it as it is.
        (Union, _) => used,
    }
}

// 6.5, 7 and 8: the right part is the primitive z; up to where words are in use then, if a rule fits.
fn by_left(
    w: &mut [i32],
    at: usize,
    right: usize,
    k: Operation,
    z: usize,
    used: usize,
) -> Option<usize>
    requires { OnLeft w.old at right k z used }
    ensures { ByLeft w.old w.new at right k z used result }
{
    let first = left_words(w, at + 1);
    let Top::Node(p) = head(w, at + 1) else {
        return None;
    };
    match (k, p) {
        (_, Union) => Some(moves::share(w, at, first, right, k, z, used)),
        (Inter, Diff) => {
            moves::swap(w, at, first, right, z);
            Some(used)
        }
        _ => None,
    }
}

// One rewrite at the node, by the lowest number that fits; up to where words are in use then.
pub fn rewrite(w: &mut [i32], at: usize, used: usize) -> Option<usize>
    requires { Node w.old at used }
    ensures { Rewrote w.old w.new at used result }
{
    let Top::Node(k) = head(w, at) else {
        return None;
    };
    if k == Union {
        return None;
    }
    let right = at + 1 + left_words(w, at);
    match head(w, right) {
        Top::Primitive(z) => by_left(w, at, right, k, z, used),
        Top::Node(q) => Some(by_right(w, at, right, k, q, used)),
    }
}

// Rewrites at the node until none fits.
pub fn reduce(w: &mut [i32], at: usize, used: usize) -> usize
    requires { Node w.old at used }
    ensures { Reduced w.old w.new at used result }
{
    let mut n = used;
    while let Some(m) = rewrite(w, at, n) {
        n = m;
    }
    n
}

// The left part of the node has so many words more.
fn widen(w: &mut [i32], at: usize, more: usize)
    requires { Widens w.old at more }
    ensures { Widened w.old w.new at more }
{
    let x = w[at] as usize;
    moves::put(w, at, &[x + moves::LEFT_WORDS * more]);
}

// The left part of an intersection or a difference came to a union.
fn again(w: &[i32], at: usize) -> bool
    requires { NodeAt w.now at }
    ensures { AgainAt w.now at result }
{
    !stands(w, at, Union) && stands(w, at + 1, Union)
}

// The tree at the node, normalized; up to where words are in use then.
pub fn normalize(w: &mut [i32], at: usize, used: usize) -> usize
    requires { Node w.old at used }
    ensures { Normalized w.old w.new at used result }
{
    let Top::Node(_) = head(w, at) else {
        return used;
    };
    let mut n = used;
    loop {
        let start = reduce(w, at, n);
        n = normalize(w, at + 1, start);
        widen(w, at, n - start);
        if !again(w, at) {
            break;
        }
    }
    if !stands(w, at, Union) {
        return n;
    }
    let right = at + 1 + left_words(w, at);
    normalize(w, right, n)
}
