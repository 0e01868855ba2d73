// The calls on a pool of records. Every call tests what it is given, and says what it answers and what it leaves.
#![tactic(auto)]

ghost use Rattle.toolkit.specs.Ledger.{Balanced};
ghost use Rattle.toolkit.specs.Run.{AlwaysAccounted};

mod pool;
mod trees;

pub use pool::Pool;
pub use trees::{Fixed, Loaded, Piece, Returned, Tree};

/// After every list of calls on a fresh pool, each record is found once, on the free chain or in one outstanding tree; and
/// outstanding are the trees that the calls and their answers say.
pub fn always_accounted()
    ensures { AlwaysAccounted }
{}

/// Whatever was called on a pool, its free records and those of its outstanding trees are as many as it has slots.
pub fn pool_balances()
    ensures { Balanced }
{}
