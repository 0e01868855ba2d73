// Making a pool, and the question how many of its records are free.
ghost use Rattle.std.specs.Prelude.{◌≡◌, ℕ, List, length};
ghost use Rattle.chain.specs.Chain.{SameLoan};
ghost use Rattle.toolkit.specs.Ledger.{Entry, Ledger};
ghost use Rattle.toolkit.specs.Pools.{held};
ghost use Rattle.toolkit.specs.Calls.{Fresh};

use crate::pool::Pool;
use records::{Record, Store};

impl<'a> Pool<'a> {
    /// A pool with all records free. A caller gives no two pools in use one number.
    pub fn new(slots: &'a mut [Record], number: u16) -> Self
        ensures fresh { Fresh number slots.old (held result) }
        ensures lender { SameLoan slots.entry result.store.slots }
    {
        Pool {
            store: Store::new(slots),
            number,
        }
    }

    /// How many records are free.
    pub fn free(&self) -> u16
        ensures { (ks : List ℕ) (ps : List Entry) → Ledger (held self.now) ks ps → result ≡ length ks }
    {
        self.store.count_free()
    }
}
