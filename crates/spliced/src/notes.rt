// The records of comments: each list of comments is a chain of them, and so are those that are unused.
ghost use Rattle.std.specs.Prelude.{◌≡◌, ℕ, ◌-◌, ◌<◌, List, map, length, set};
ghost use Rattle.std.specs.List.{slice_get};
ghost use Rattle.chain.specs.Chain.{room, Slot, link_at, Chain, slots_from, relinked, Beyond, SameLoan};
ghost use Rattle.spliced.specs.Linked.{links};
ghost use Rattle.spliced.specs.Notes.{comments, comment_at, linked_note};

use crate::linked::Linked;

/// A comment; the link is the slot of the next one in its list.
pub type Note = Linked<u32>;

impl Linked<u32> {
    pub const UNUSED: Note = Linked {
        content: 0,
        next: 0,
    };
}

/// The caller's records, and where the chain of the unused ones begins.
#[derive(Drop)]
pub(crate) struct Notes<'a> {
    pub(crate) slots: &'a mut [Note],
    pub(crate) free: u16,
}

impl<'a> Notes<'a> {
    /// All records unused.
    pub(crate) fn new(slots: &'a mut [Note]) -> Self
        ensures chain { Chain (links result.slots.now) result.free (slots_from 1 (room (length slots.old))) }
        ensures beyond { Beyond slots.old result.slots.now }
        ensures lender { SameLoan slots.entry result.slots }
    {
        let free = chain::make(slots);
        Notes { slots, free }
    }

    /// How many comments the list that begins at `first` has.
    pub(crate) fn count(&self, first: u16) -> usize
        ensures { (ks : List ℕ) → Chain (links self.now.slots.now) first ks → result ≡ length ks }
    {
        usize::from(chain::count(self.slots, first))
    }

    /// The comment at a rank of that list; none past its end.
    pub(crate) fn comment(&self, first: u16, rank: usize) -> Option<u32>
        ensures { (ks : List ℕ) → Chain (links self.now.slots.now) first ks → result ≡ slice_get (map (comment_at (comments self.now.slots.now)) ks) rank }
    {
        let mut at = first;
        for _ in 0..rank {
            at = chain::next_of(self.slots, at)?;
        }
        Some(chain::record_at(self.slots, at)?.content)
    }

    /// Takes an unused record for a comment that ends its list.
    pub(crate) fn draw(&mut self, comment: u32) -> u16
        requires { Slot (length self.old.slots.now) self.old.free }
        ensures slot { result ≡ self.old.free }
        ensures free { self.new.free ≡ link_at (links self.old.slots.now) result }
        ensures records { self.new.slots.now ≡ set self.old.slots.now (result - 1) (record { content = comment; next = 0 }) }
        ensures lender { SameLoan self.old.slots self.new.slots }
    {
        let record = Linked {
            content: comment,
            next: 0,
        };
        chain::take(self.slots, &mut self.free, record).unwrap()
    }

    /// Leads the list that ends at `last` on to the one that begins at `first`.
    pub(crate) fn join(&mut self, last: u16, first: u16)
        requires { Slot (length self.old.slots.now) last }
        ensures free { self.new.free ≡ self.old.free }
        ensures records { self.new.slots.now ≡ relinked linked_note self.old.slots.now last first (record { content = 0; next = 0 }) }
        ensures lender { SameLoan self.old.slots self.new.slots }
    {
        chain::link_to(self.slots, last, first);
    }
}
