// Lists every text of data/, 00, 01, .., as the listing program does, and prints its number before it.

#![tactic(auto)]

use std::os::fd::AsRawFd;

// Lists the text of this number, and answers whether there is one.
fn list_numbered(rt: &HostRuntime, k: u8) -> bool {
    let name = [b'0' + k / 10, b'0' + k % 10];
    let Some(file) = lines::open(rt, &name) else {
        return false;
    };
    lines::say(rt, format_args!("{k:02}: "));
    pipe::list_from(file.as_raw_fd());
    true
}

fn main(rt: HostRuntime) {
    for k in 0..100 {
        if !list_numbered(&rt, k) {
            return;
        }
    }
}
