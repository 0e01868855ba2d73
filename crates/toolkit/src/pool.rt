// A pool of records. Each call stands in a file of its own.
ghost use Rattle.std.specs.Prelude.{ℕ, List};
ghost use Rattle.toolkit.specs.Ledger.{state, Entry, Ledger};

use records::Store;

mod look;
mod make;
mod own;
mod unload;

/// A pool over the caller's records. Its type says that nothing is lost: every record is on the free chain or in one
/// outstanding tree.
#[derive(Drop)]
pub struct Pool<'a> {
    store: Store<'a>,
    number: u16,
    ghost accounted: { ∥ ((ks : List ℕ) × (ps : List Entry) × Ledger (state number store.slots.now store.free) ks ps) ∥₁ },
}
