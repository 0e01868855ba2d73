// Looking at one record: what a program needs to walk a tree and print it.
ghost use Rattle.std.specs.Prelude.{◌≡◌, length, MatchOption};
ghost use Rattle.chain.specs.Chain.{Slot};
ghost use Rattle.records.specs.Record.{at};
ghost use Rattle.toolkit.specs.Pools.{held};

use crate::pool::Pool;
use records::Record;

impl<'a> Pool<'a> {
    /// The record of a slot, be it free or in a tree; none where the number is no slot.
    pub fn record(&self, slot: u16) -> Option<Record>
        ensures { MatchOption result
            (Slot (length (held self.now).slots) slot → ⊥)
            (λ c. Slot (length (held self.now).slots) slot × (c ≡ at (held self.now).slots slot)) }
    {
        chain::record_at(self.store.slots, slot).copied()
    }
}
