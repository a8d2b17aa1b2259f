// What the listing program does: a text on a descriptor is read, its zone is listed, and what is printed for it goes to standard output. `listings`
// does the same with its texts: a bound that is too small for one is too small for both, and shows there.

#![tactic(auto)]

ghost use Rattle.std.specs.Prelude.{◌≤◌, length};
ghost use Rattle.rules.specs.Listing.{ZoneListed};
ghost use Rattle.number.specs.Writing.{Put};
ghost use Rattle.pipe.specs.Tables.{table_listing};

// Makes a table's list for the full range, in a buffer of 8,192 words, and writes what is printed for it: a first line of at most 26 bytes, and
// at most 42 for each of 4,092 products.
fn list_table(table: &[i32], out: &mut [u8]) -> usize
    requires { 171890 ≤ length out.old }
    ensures { Put out.old 0 (table_listing table.now) out.new result }
{
    let mut list: [u64; 8192] = [0; 8192];
    match zone::make_list(table, window::everywhere(), &mut list) {
        Err(refusal) => print::put_refusal(out, refusal),
        Ok(_) => print::put_list(out, &list),
    }
}

// Reads a text into a table, whose 127 rows always suffice, and writes what is printed for it.
pub fn list_zone(text: &[u8], out: &mut [u8]) -> usize
    requires { 171890 ≤ length out.old }
    ensures zone_listed { ZoneListed text.now out.old out.new result }
    ensures upper_bound { result ≤ 171890 }
{
    let mut table: [i32; 1524] = [0; 1524];
    match zone::read_text(text, &mut table) {
        Err(refusal) => print::put_refusal(out, refusal),
        Ok(words) => list_table(&table[..words], out),
    }
}

// Reads the text on a descriptor whole, and writes what is printed for it.
pub fn list_from(fd: i32) {
    // One byte more than a text may have, so that a longer one shows.
    let mut text: [u8; 16385] = [0; 16385];
    let read = io::read_full(fd, &mut text);
    let mut out: [u8; 171890] = [0; 171890];
    let size = list_zone(&text[..read], &mut out);
    io::write_all(1, &out[..size]);
}
