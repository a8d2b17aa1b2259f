// Numbered cases, edges and refusals through the public calls, as data/questions asks them (the crate `questions` says how).

#![tactic(auto)]

fn main(rt: HostRuntime) {
    questions::answer_file(&rt, b"questions");
}
