// Carrying comments by a list of moves.
ghost use Rattle.std.specs.Prelude.{◌≡◌, ℕ};
ghost use Rattle.comments.specs.declared.store.Side.{Side};
ghost use Rattle.comments.specs.Lists.{carried};
ghost use Rattle.comments.specs.Laws.{Once, Gathered};

use crate::place::Move;
use crate::store::{Side, Store};

/// Makes the moves in their order: of each, the leading list goes from `from.lo` to `to.lo` and the trailing list from
/// `from.hi` to `to.hi`.
pub fn carry<S: Store>(store: &mut S, moves: &[Move])
    ensures made { (side : Side) (k : ℕ) → S.lists store.new side k ≡ carried side (S.lists store.old side) moves.now k }
    ensures vacant { S.vacant store.new ≡ S.vacant store.old }
    ensures gathered { (side : Side) → Gathered (S.lists store.old side) (S.lists store.new side) }
    ensures once { (side : Side) (c : ℕ) → Once c (S.lists store.old side) → Once c (S.lists store.new side) }
{
    for m in moves {
        store.move_list(Side::Leading, m.from.lo, m.to.lo);
        store.move_list(Side::Trailing, m.from.hi, m.to.hi);
    }
}
