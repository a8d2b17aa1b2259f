// Rows put in their place: a leaf, or a row with two parts that are to come.
ghost use Rattle.std.specs.Prelude.{ℕ, ◌+◌, ◌^◌, ◌<◌, ◌≡◌, set};
ghost use Rattle.rows.specs.declared.RowKind.TheVariants.{Either, Both};
ghost use Rattle.rows.specs.Rows.{links_at, next_at, done_at};
ghost use Rattle.rows.specs.Lines.{line, with_pair};

use crate::{Links, Masks, Part, PlanRow, RowKind};

// The number of the primitive that a set has alone.
fn number(bit: u64) -> u8
    ensures { (i : ℕ) → i < 64 → bit ≡ 2 ^ i → result ≡ i }
{
    u64::trailing_zeros(bit) as u8
}

// The links of a row with two parts, and its left- and right-hand parts as rows that are to come.
pub fn put_pair(
    rows: &mut [PlanRow; 127],
    at: usize,
    own: Links,
    lhs: Part,
    rhs: Part,
    follows: u8,
    precedes: Option<u8>,
)
    requires at_bound { (at + 1 < own.left) × (own.left < 127) }
    requires parts_bound { (lhs.row < 127) × (rhs.row < 127) }
    ensures { rows.new ≡ with_pair rows.old at own lhs rhs follows precedes }
{
    rows[at].links = own;
    rows[at + 1].links = rhs.links(follows, None);
    rows[usize::from(own.left)].links = lhs.links(own.next, precedes);
}

// Either of two parts: after each comes what comes after the row.
pub fn put_either(rows: &mut [PlanRow; 127], at: usize, left: u8, lhs: Part, rhs: Part)
    requires at_bound { (at + 1 < left) × (left < 127) }
    requires parts_bound { (lhs.row < 127) × (rhs.row < 127) }
    ensures { rows.new ≡ with_pair rows.old at (line Either left (next_at rows.old at) (done_at rows.old at)) lhs rhs (next_at rows.old at) None }
{
    let here = rows[at].links;
    let own = Links {
        kind: RowKind::Either,
        left,
        ..here
    };
    put_pair(rows, at, own, lhs, rhs, here.next, None);
}

// Both of two parts: after the right one comes the left one, before which the right one is done.
pub fn put_both(rows: &mut [PlanRow; 127], at: usize, left: u8, lhs: Part, rhs: Part)
    requires at_bound { (at + 1 < left) × (left < 127) }
    requires parts_bound { (lhs.row < 127) × (rhs.row < 127) }
    ensures { rows.new ≡ with_pair rows.old at (line Both left (next_at rows.old at) (done_at rows.old at)) lhs rhs left (Some (at + 1)) }
{
    let own = Links {
        kind: RowKind::Both,
        left,
        ..rows[at].links
    };
    put_pair(rows, at, own, lhs, rhs, left, Some(at as u8 + 1));
}

// A leaf: what it is alone is known by the bit of its primitive.
pub fn put_leaf(rows: &mut [PlanRow; 127], at: usize, kind: RowKind, bit: u64, span: u64)
    requires { at < 127 }
    ensures by_number { (i : ℕ) → i < 64 → bit ≡ 2 ^ i → rows.new ≡ set rows.old at (record { links = line kind i (next_at rows.old at) (done_at rows.old at); masks = record { below = bit; span = span; risk = 0 } }) }
    ensures masks_after { rows.new ≡ set rows.old at (record { links = links_at rows.new at; masks = record { below = bit; span = span; risk = 0 } }) }
{
    let links = Links {
        kind,
        left: number(bit),
        ..rows[at].links
    };
    let masks = Masks {
        below: bit,
        span,
        risk: 0,
    };
    rows[at] = PlanRow { links, masks };
}
