// Making a register, and asking how many comments more it holds.
ghost use Rattle.std.specs.Prelude.{◌≡◌, ℕ, [], length};
ghost use Rattle.chain.specs.Chain.{SameLoan};
ghost use Rattle.comments.specs.declared.store.Side.{Side};
ghost use Rattle.register.specs.Held.{lists_of, spare_of};

use crate::entry::Entry;
use crate::register::Register;

impl<'a> Register<'a> {
    /// A register without comments. The records stay as they are until comments are added.
    pub fn new(slots: &'a mut [Entry]) -> Self
        ensures lists { (side : Side) (k : ℕ) → lists_of result side k ≡ [] }
        ensures spare { spare_of result ≡ length slots.old }
        ensures records { result.slots.now ≡ slots.old }
        ensures lender { SameLoan slots.entry result.slots }
    {
        Register { slots, used: 0 }
    }

    /// For how many more comments there are records.
    pub fn spare(&self) -> usize
        ensures { result ≡ spare_of self.now }
    {
        self.slots.len() - self.used
    }
}
