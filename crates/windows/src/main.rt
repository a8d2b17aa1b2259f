// The windows nobody tries: over each zone a window is moved as a thumb would move it, and each time its list is held against the tree, in the window,
// beside it and far away. The zones, the windows and the coordinates are lines of data/zones (the crate `questions` says how).

#![tactic(auto)]

fn main(rt: HostRuntime) {
    let head =
        "zone and window\tproducts\toutside\tinside\tout by column\tby code\tby frame\tdisagree\n";
    lines::say(&rt, head);
    questions::answer_file(&rt, b"zones");
}
