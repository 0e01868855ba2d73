// Giving back a whole tree.
ghost use Rattle.std.specs.Prelude.{◌≡◌};
ghost use Rattle.chain.specs.Chain.{SameLoan};
ghost use Rattle.toolkit.specs.Keys.{key};
ghost use Rattle.toolkit.specs.Pools.{held};
ghost use Rattle.toolkit.specs.Calls.{Unload, HandsBack, answer};

use crate::pool::Pool;
use crate::trees::{Returned, Tree};
use refusal::Refusal;

impl<'a> Pool<'a> {
    /// Gives back every record of a tree, loaded or fixed. Refuses only a tree that is none of this pool's, and hands it back.
    pub fn unload(&mut self, tree: Tree) -> Result<(), Returned<Tree>>
        ensures outcome { Unload (held self.old) (key tree) (answer result) (held self.new) }
        ensures given { HandsBack result tree }
        ensures lender { SameLoan self.old.store.slots self.new.store.slots }
    {
        let key = tree.key();
        if !self.owns(key) {
            return Err(Returned {
                given: tree,
                refusal: Refusal::InvalidSlot { slot: key.root },
            });
        }
        tree.spend();
        self.store.give_back(key.root);
        Ok(())
    }
}
