// One piece of work: a store is filled, and its comments are moved.
use comments::{Fill, Move, Place, Side, carry};
use register::{Entry, Register};
use spliced::{Head, Note, Spliced};
use std::alloc::{AllocError, Global};
use std::io;
use std::time::Instant;

#[derive(Clone, Copy, PartialEq, Eq, Debug)]
pub struct Work {
    /// How many offsets have comments, and how many comments each of them has.
    pub offsets: u32,
    pub each: u32,
    /// Each move goes from one offset to the next, beginning at 0.
    pub moves: u32,
}

/// Does the work in both stores.
pub fn measure(rt: &HostRuntime, work: Work) -> io::Result<()> {
    let heap = rt.alloc();
    let moves = moves_of(heap, work)?;
    let comments = work.offsets.saturating_mul(work.each) as usize;
    let mut notes = vec![in heap; Note::UNUSED; comments]?;
    let mut heads = vec![in heap; Head::UNUSED; comments]?;
    let mut entries = vec![in heap; Entry::UNUSED; comments]?;
    let mut spliced = Spliced::new(notes.as_mut_slice(), heads.as_mut_slice());
    run(rt, "spliced chains", &mut spliced, work, moves.as_slice())?;
    let mut register = Register::new(entries.as_mut_slice());
    run(rt, "register", &mut register, work, moves.as_slice())
}

fn moves_of(heap: Global, work: Work) -> Result<Vec<Move>, AllocError> {
    (0..work.moves)
        .map(|i| Move {
            from: point(i),
            to: point(i.saturating_add(1)),
        })
        .collect(heap)
}

/// The place of nothing, at an offset.
fn point(offset: u32) -> Place {
    Place {
        lo: offset,
        hi: offset,
    }
}

/// Fills a store, makes the moves, and prints the time of both.
fn run<S: Fill>(
    rt: &HostRuntime,
    name: &str,
    store: &mut S,
    work: Work,
    moves: &[Move],
) -> io::Result<()> {
    let begin = Instant::now(rt)?;
    let held = fill_all(store, work);
    let filled = begin.elapsed(rt)?.as_micros();
    let begin = Instant::now(rt)?;
    carry(store, moves);
    let moved = begin.elapsed(rt)?.as_micros();
    let last = work.moves;
    let leading = store.count(Side::Leading.at(last));
    let trailing = store.count(Side::Trailing.at(last));
    let offsets = work.offsets;
    let number = moves.len();
    println!(rt;
        "  {name}: {held} comments on {offsets} offsets, {number} moves, {leading} leading and {trailing} trailing at the last offset"
    )?;
    eprintln!(rt;
        "  {name}: {held} comments on {offsets} offsets: filled in {filled} us, {number} moves in {moved} us"
    )
}

/// Gives every offset its comments, leading and trailing ones in turn, and answers how many the store took.
fn fill_all<S: Fill>(store: &mut S, work: Work) -> u32 {
    let mut held = 0u32;
    for offset in 0..work.offsets {
        for i in 0..work.each {
            let side = if i % 2 == 0 {
                Side::Leading
            } else {
                Side::Trailing
            };
            if store.add(side.at(offset), held).is_ok() {
                held = held.saturating_add(1);
            }
        }
    }
    held
}
