// The test that every call makes of what it is given.
ghost use Rattle.std.specs.Prelude.{◌≡◌, true, false};
ghost use Rattle.toolkit.specs.Pools.{held};
ghost use Rattle.toolkit.specs.Calls.{Valid};

use crate::pool::Pool;
use crate::trees::Key;

impl<'a> Pool<'a> {
    /// Whether a key is one of this pool: its number is the pool's, and its root bears its mark.
    pub(crate) fn owns(&self, key: Key) -> bool
        ensures yes { result ≡ true → Valid (held self.now) key }
        ensures no { result ≡ false → Valid (held self.now) key → ⊥ }
    {
        key.pool == self.number && self.store.mark_of(key.root) == Some(key.mark)
    }
}
