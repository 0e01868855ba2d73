// Two stores beside each other, of whatever kinds: that they hold the same, and that they go on holding the same.
ghost use Rattle.std.specs.Prelude.{◌≡◌, ℕ, ◌<◌, Decides};
ghost use Rattle.comments.specs.declared.store.Side.{Side};
ghost use Rattle.comments.specs.Laws.{SameMeaning};
ghost use Rattle.comments.specs.Lists.{carried};

use crate::carrying::carry;
use crate::place::Move;
use crate::store::{Side, Spot, Store};

/// Whether two stores have the same list on a side at an offset.
pub fn same_list<A: Store, B: Store>(a: &A, b: &B, spot: Spot) -> bool
    ensures { Decides result (A.Store.lists a.now spot.side spot.offset ≡ B.Store.lists b.now spot.side spot.offset) }
{
    let n = a.count(spot);
    n == b.count(spot) && (0..n).all(|rank| a.comment(spot, rank) == b.comment(spot, rank))
}

/// Whether two stores have the same lists, on both sides, at every offset below `end`.
pub fn same_lists<A: Store, B: Store>(a: &A, b: &B, end: u32) -> bool
    ensures { Decides result ((side : Side) (k : ℕ) → k < end → A.Store.lists a.now side k ≡ B.Store.lists b.now side k) }
{
    (0..end).all(|offset| {
        same_list(a, b, Side::Leading.at(offset)) && same_list(a, b, Side::Trailing.at(offset))
    })
}

/// Makes the same moves in two stores: where they held the same lists, they hold the same lists again.
pub fn carry_both<A: Store, B: Store>(a: &mut A, b: &mut B, moves: &[Move])
    ensures first { (side : Side) (k : ℕ) → A.Store.lists a.new side k ≡ carried side (A.Store.lists a.old side) moves.now k }
    ensures second { (side : Side) (k : ℕ) → B.Store.lists b.new side k ≡ carried side (B.Store.lists b.old side) moves.now k }
    ensures alike { ((side : Side) (k : ℕ) → A.Store.lists a.old side k ≡ B.Store.lists b.old side k) → (side : Side) (k : ℕ) → A.Store.lists a.new side k ≡ B.Store.lists b.new side k }
{
    carry(a, moves);
    carry(b, moves);
}

/// Two stores with equal lists and equal room give equal answers to equal calls, and have equal lists and equal room
/// afterwards, whatever they are made of.
pub fn same_meaning()
    ensures { SameMeaning }
{}
