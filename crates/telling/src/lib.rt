// Tells the ways of choosing of a zone: each in order, with what becomes of it in a window, a line each; then the list. To be read beside the rules.
// Letters name the primitives: A is primitive 0. Those after Z are named by their numbers: P26.

#![tactic(auto)]

ghost use Rattle.std.specs.Prelude.{◌≤◌, length};
ghost use Rattle.rules.specs.ListWords.{product_count, place_of};
ghost use Rattle.laws.specs.Sound.{Sound};
ghost use Rattle.promises.specs.EachOnce.{EachOnce};

use fate::told;
use fate::told::{End, Told};
use lines::{answers, say};
use rules::{Axis, Product, Refusal, Window};
use std::fmt;

// The name of a primitive.
#[derive(Clone, Copy)]
struct Name(u8);

impl fmt::Display for Name {
    fn fmt<W: fmt::Write>(&self, f: &mut fmt::Formatter<W>) -> fmt::Result {
        match self.0 {
            i @ 0..=25 => write!(f, "{}", char::from(b'A' + i)),
            i => write!(f, "P{i}"),
        }
    }
}

// The names of a set of primitives, with a joint between them.
#[derive(Clone, Copy)]
struct Names(u64, &'static str);

impl fmt::Display for Names {
    fn fmt<W: fmt::Write>(&self, f: &mut fmt::Formatter<W>) -> fmt::Result {
        let mut joint = "";
        for i in 0..64 {
            if (self.0 >> i) & 1 != 0 {
                write!(f, "{joint}{}", Name(i))?;
                joint = self.1;
            }
        }
        Ok(())
    }
}

// What a way chooses.
#[derive(Clone, Copy)]
struct Choice(Product);

impl fmt::Display for Choice {
    fn fmt<W: fmt::Write>(&self, f: &mut fmt::Formatter<W>) -> fmt::Result {
        let Product { plain, cuts } = self.0;
        write!(f, "{}", Names(plain, " and "))?;
        if cuts != 0 {
            write!(f, " without {}", Names(cuts, " or "))?;
        }
        Ok(())
    }
}

// The axis on which nothing is left.
#[derive(Clone, Copy)]
struct Lost(Axis);

impl fmt::Display for Lost {
    fn fmt<W: fmt::Write>(&self, f: &mut fmt::Formatter<W>) -> fmt::Result {
        match self.0 {
            Axis::Column => write!(f, "column"),
            Axis::Code => write!(f, "code"),
            Axis::Frame => write!(f, "frame"),
        }
    }
}

// Which cuts of a way fall away, those that its product has not.
#[derive(Clone, Copy)]
struct Fallen(u64);

impl fmt::Display for Fallen {
    fn fmt<W: fmt::Write>(&self, f: &mut fmt::Formatter<W>) -> fmt::Result {
        if self.0 != 0 {
            write!(f, "{} falls away, ", Names(self.0, " falls away, "))?;
        }
        Ok(())
    }
}

// What a way comes to.
#[derive(Clone, Copy)]
struct Outcome(Told);

impl fmt::Display for Outcome {
    fn fmt<W: fmt::Write>(&self, f: &mut fmt::Formatter<W>) -> fmt::Result {
        let cuts = self.0.chosen.cuts;
        match self.0.end {
            End::Dropped(axis) => write!(f, "dropped, no {} is left", Lost(axis)),
            End::Again(product, first) => {
                write!(f, "{}equal to way {first}", Fallen(cuts ^ product.cuts))
            }
            End::Listed(product, number) => {
                let fallen = Fallen(cuts ^ product.cuts);
                let Product { plain, cuts } = product;
                write!(f, "{fallen}kept as product {number}, words {plain} {cuts}")
            }
        }
    }
}

// Tells each way of a table, by the list for the window.
fn tell_ways(rt: &impl Print, table: &[i32], list: &[u64], window: Window)
    requires sound { Sound table.now }
    requires each_once { EachOnce table.now window list.now }
    requires list_bound { product_count list.now ≤ 65536 }
{
    let mut bits: [u64; 127] = [0; 127];
    choice::number_rows(&mut bits, table);
    let mut counts: [u64; 254] = [0; 254];
    let ways = fate::ways(table, &bits, &mut counts);
    let mut firsts: [u64; 65536] = [0; 65536];
    let mut products: usize = 0;
    for k in 0..ways {
        let way = told::tell_way(
            &mut firsts,
            &mut counts,
            table,
            &bits,
            list,
            window,
            k,
            products,
        );
        say(
            rt,
            format_args!("way {k}: {}: {}\n", Choice(way.chosen), Outcome(way)),
        );
        products = way.products;
    }
}

// Says a list as the listing program prints it, its products a line each.
fn say_list(rt: &impl Print, list: &[u64])
    requires { place_of (product_count list.now) ≤ length list.now }
{
    let count = list[0];
    say(rt, format_args!("list\t{count}\n"));
    for k in 0..count as usize {
        let Product { plain, cuts } = layout::product_at(list, k);
        say(rt, format_args!("{plain}\t{cuts}\n"));
    }
}

// Says why there is none, at a line's end.
fn say_refused(rt: &impl Print, refusal: Refusal) {
    answers::refused(rt, refusal);
    say(rt, "\n");
}

// Tells the ways of a table and its list, which there is always room for, or why there is none.
fn tell_table(rt: &impl Print, table: &[i32], window: Window)
    requires { Sound table.now }
{
    let mut list: [u64; 131080] = [0; 131080];
    match zone::make_list(table, window, &mut list) {
        Err(refusal) => say_refused(rt, refusal),
        Ok(_) => {
            tell_ways(rt, table, &list, window);
            say_list(rt, &list);
        }
    }
}

// Tells the ways of the zone of a text and its list, or why there is none. The 127 rows of the table always suffice.
pub fn tell_zone(rt: &impl Print, text: &[u8], window: Window) {
    let mut table: [i32; 1524] = [0; 1524];
    match zone::read_text(text, &mut table) {
        Err(refusal) => say_refused(rt, refusal),
        Ok(words) => tell_table(rt, &table[..words], window),
    }
}

// Reads the text on a descriptor whole, and tells its zone.
pub fn tell_from(rt: &impl Print, fd: i32, window: Window) {
    // One byte more than a text may have, so that a longer one shows.
    let mut text: [u8; 16385] = [0; 16385];
    // std's read_exact fails where a text is shorter, and its read_to_end takes the heap
    let read = io::read_full(fd, &mut text);
    tell_zone(rt, &text[..read], window);
}
