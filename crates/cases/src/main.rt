// Document 01's cases that are not starred, its traps, its table of refused calls, groups, due timers, the newest timer, weights added up,
// asking and committing, windows, the humblest priority, writer against rival, and CPUs that are apart.
// It differs from the program `recorded` by its input alone: a program runs on the list that stands beside it.
#![tactic(auto)]

use std::io;

fn main(rt: HostRuntime) -> io::Result<()> {
    replay::run(&rt)
}
