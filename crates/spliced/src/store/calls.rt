// The calls of this store alone: making one, and asking how many more comments it holds.
ghost use Rattle.std.specs.Prelude.{◌≡◌, ℕ, min, [], length};
ghost use Rattle.chain.specs.Chain.{room, Beyond, SameLoan};
ghost use Rattle.comments.specs.declared.store.Side.{Side};
ghost use Rattle.spliced.specs.Store.{lists_in, spare};

use super::Spliced;
use crate::heads::{Head, Heads};
use crate::notes::{Note, Notes};

impl<'a> Spliced<'a> {
    /// An empty store. It holds as many comments as there are notes, and no more than there are heads.
    pub fn new(notes: &'a mut [Note], heads: &'a mut [Head]) -> Self
        ensures empty { (side : Side) (k : ℕ) → lists_in result side k ≡ [] }
        ensures spare { spare result ≡ min (room (length notes.old)) (room (length heads.old)) }
        ensures beyond { (Beyond notes.old result.notes.slots.now) × (Beyond heads.old result.heads.slots.now) }
        ensures lender { SameLoan notes.entry result.notes.slots × SameLoan heads.entry result.heads.slots }
    {
        Spliced {
            notes: Notes::new(notes),
            heads: Heads::new(heads),
            held: 0,
        }
    }

    /// How many comments more there is room for: each takes a note, and at most a head.
    pub fn spare(&self) -> u16
        ensures { result ≡ spare self.now }
    {
        let most = chain::last_slot(self.notes.slots).min(chain::last_slot(self.heads.slots));
        most.saturating_sub(self.held)
    }
}
