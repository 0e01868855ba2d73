// How long moves take in each store. What was moved goes to standard output, the times to standard error.
#![tactic(auto)]

mod work;

use std::{env, io};
use work::{Work, measure};

/// With the argument `full` the sizes of the README; otherwise small ones, which only show that it runs.
fn main(rt: HostRuntime) -> io::Result<()> {
    let by = if is_full(&rt)? { 100 } else { 1 };
    let moves = 200 * by;
    println!(rt; "offsets: as many comments and moves, on fewer and fewer offsets")?;
    for (offsets, each) in [(200, 3), (50, 12), (10, 60)] {
        let offsets = offsets * by;
        measure(
            &rt,
            Work {
                offsets,
                each,
                moves,
            },
        )?;
    }
    println!(rt; "comments: fewer and fewer comments, on as many offsets")?;
    for each in [2, 1] {
        let offsets = 200 * by;
        measure(
            &rt,
            Work {
                offsets,
                each,
                moves,
            },
        )?;
    }
    println!(rt; "lengths: longer and longer lists are joined")?;
    for each in [2, 6, 60, 6 * by] {
        let (offsets, moves) = (100, 99);
        measure(
            &rt,
            Work {
                offsets,
                each,
                moves,
            },
        )?;
    }
    Ok(())
}

fn is_full(rt: &HostRuntime) -> io::Result<bool> {
    Ok(
        env::args(rt)?
            .nth(1)
            .is_some_and(|word| word.as_str() == "full"),
    )
}
