// The kernel's answers to recorded and generated calls of every operation, to generated groups, and to decisions with timers that cannot be read or are superseded (harness/lists).
#![tactic(auto)]

use std::io;

fn main(rt: HostRuntime) -> io::Result<()> {
    replay::run(&rt)
}
