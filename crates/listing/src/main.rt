// The listing program: prints the list of the zone text on standard input for the full range, or why there is none.

#![tactic(auto)]

fn main() {
    pipe::list_from(0);
}
