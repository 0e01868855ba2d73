// The register as a comment store: what an addition and a move do to the entries, and what the questions answer.
ghost use Rattle.std.specs.Prelude.{◌≡◌, ℕ, ◌⊎◌, ◌≢◌, OnErr, slice_index_or};
ghost use Rattle.chain.specs.Chain.{SameLoan};
ghost use Rattle.comments.specs.declared.store.Side.{Side};
ghost use Rattle.comments.specs.Filling.{Fills};
ghost use Rattle.comments.specs.Lists.{shifted};
ghost use Rattle.register.specs.declared.entry.Entry.{Entry};
ghost use Rattle.register.specs.Joins.{together};
ghost use Rattle.register.specs.Held.{entries_of, lists_of, spare_of, beyond};

use crate::entry::Entry;
use crate::joining::{Joining, rejoin_each};
use crate::pass::{comment_in, count_in};
use crate::register::Register;
use comments::{Fill, Side, Spot, Store};
use refusal::Refusal;

impl<'a> Register<'a> {
    fn entries(&self) -> &[Entry]
        ensures { result.now ≡ entries_of self.now }
    {
        &self.slots[..self.used]
    }

    /// Puts the lists on a side at `first` and `second` together, in this order. `to` is one of the two: there the list is
    /// then, and the other is empty.
    fn put_together(&mut self, side: Side, first: u32, second: u32, to: u32)
        requires apart { first ≢ second }
        requires ends { (to ≡ first) ⊎ (to ≡ second) }
        ensures lists { (at : Side) (k : ℕ) → lists_of self.new at k ≡ together (lists_of self.old) side first second to at k }
        ensures beyond { beyond self.new ≡ beyond self.old }
        ensures lender { SameLoan self.old.slots self.new.slots }
    {
        let ahead = count_in(self.entries(), side.at(first));
        let joining = Joining {
            side,
            first,
            second,
            to,
            ahead,
        };
        let used = self.used;
        rejoin_each(&mut self.slots[..used], joining);
    }
}

impl<'a> Store for Register<'a> {
    ghost lists = { λ r. lists_of r };

    ghost vacant = { λ r. spare_of r };

    /// The records that are not yet entries stay as they are.
    fn move_list(&mut self, side: Side, from: u32, to: u32)
        ensures moved { (at : Side) (k : ℕ) → lists_of self.new at k ≡ shifted side (lists_of self.old) from to at k }
        ensures vacant { spare_of self.new ≡ spare_of self.old }
        ensures beyond { beyond self.new ≡ beyond self.old }
        ensures lender { SameLoan self.old.slots self.new.slots }
    {
        if from == to {
            return;
        }
        match side {
            Side::Leading => self.put_together(side, from, to, to),
            Side::Trailing => self.put_together(side, to, from, to),
        }
    }

    fn count(&self, spot: Spot) -> usize {
        count_in(self.entries(), spot)
    }

    fn comment(&self, spot: Spot, rank: usize) -> Option<u32> {
        comment_in(self.entries(), spot, rank)
    }
}

impl<'a> Fill for Register<'a> {
    /// Puts a comment last in a list. It is refused exactly where no record is spare, and then nothing changes.
    fn add(&mut self, spot: Spot, comment: u32) -> Result<(), Refusal>
        ensures fills { Fills (lists_of self.old) (lists_of self.new) (spare_of self.old) (spare_of self.new) spot.side spot.offset comment result }
        ensures same { OnErr result (self.new ≡ self.old) }
        ensures records { (i : ℕ) (d : Entry) → (i ≢ self.old.used) → slice_index_or self.new.slots.now i d ≡ slice_index_or self.old.slots.now i d }
        ensures lender { SameLoan self.old.slots self.new.slots }
    {
        if self.spare() == 0 {
            return Err(Refusal::TooFewRecords { needed: 1 });
        }
        let rank = count_in(self.entries(), spot);
        self.slots[self.used] = Entry {
            comment,
            spot,
            rank,
        };
        self.used += 1;
        Ok(())
    }
}
