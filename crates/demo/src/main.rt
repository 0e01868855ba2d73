// One task from beginning to end: a pricing rule is read from standard input, its needless pairs go, and their comments are
// carried.
#![tactic(auto)]

mod pairs;
mod promises;
mod rule;
mod show;
mod task;

use std::io;

fn main(rt: HostRuntime) -> io::Result<()> {
    task::play(&rt)?;
    promises::show_promises(&rt)
}
