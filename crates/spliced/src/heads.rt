// The records of lists: one for each list that is not empty, which says where the chain of its comments begins and ends.
ghost use Rattle.std.specs.Prelude.{◌≡◌, ℕ, ◌-◌, ◌<◌, ◌≤◌, length, set, IfSome, Some, None, MatchOption};
ghost use Rattle.chain.specs.Chain.{room, Slot, link_at, Chain, Off, slots_from, Beyond, SameLoan};
ghost use Rattle.spliced.specs.Linked.{links};
ghost use Rattle.spliced.specs.Heads.{list_at, with_list, At, Nowhere};
ghost use Rattle.spliced.specs.Layout.{Idle};

use crate::linked::Linked;
use comments::Spot;

/// A list: where it stands, and the slots of its first and its last comment.
#[derive(Clone, Copy, PartialEq, Eq, Debug)]
pub struct NoteList {
    pub spot: Spot,
    pub first: u16,
    pub last: u16,
}

/// The record of a list, or an unused one; the link is for the unused.
pub type Head = Linked<Option<NoteList>>;

impl Linked<Option<NoteList>> {
    pub const UNUSED: Head = Linked {
        content: None,
        next: 0,
    };
}

/// Where a list was found.
#[derive(Clone, Copy, PartialEq, Eq, Debug)]
pub(crate) struct Found {
    pub(crate) head: u16,
    pub(crate) list: NoteList,
}

/// The caller's records, where the chain of the unused ones begins, and the last slot that ever held a list, so that a
/// search need not go beyond.
#[derive(Drop)]
pub(crate) struct Heads<'a> {
    pub(crate) slots: &'a mut [Head],
    pub(crate) free: u16,
    pub(crate) high: u16,
    ghost idle: { Idle slots.now high },
}

impl<'a> Heads<'a> {
    /// All records unused.
    pub(crate) fn new(slots: &'a mut [Head]) -> Self
        ensures chain { Chain (links result.slots.now) result.free (slots_from 1 (room (length slots.old))) }
        ensures unused { (i : ℕ) → i < room (length slots.old) → list_at result.slots.now i ≡ None }
        ensures beyond { Beyond slots.old result.slots.now }
        ensures lender { SameLoan slots.entry result.slots }
    {
        let last = usize::from(chain::last_slot(slots));
        slots[..last].fill(Head::UNUSED);
        let free = chain::make(slots);
        Heads {
            slots,
            free,
            high: 0,
        }
    }

    /// The record of the list at a spot.
    pub(crate) fn find(&self, spot: Spot) -> Option<Found>
        ensures high { IfSome result (λ f. f.head ≤ self.now.high) }
        ensures finds { MatchOption result (Nowhere self.now.slots.now spot.side spot.offset) (λ f. At self.now.slots.now spot.side spot.offset f.head f.list) }
    {
        // Tried: `zip` of slots and records, with no index and no cast. It proved, but searched at a third of this speed.
        for (i, head) in self.slots[..usize::from(self.high)].iter().enumerate() {
            if let Some(list) = head.content
                && list.spot == spot
            {
                let head = i as u16 + 1;
                return Some(Found { head, list });
            }
        }
        None
    }

    /// Takes an unused record for a list.
    pub(crate) fn draw(&mut self, list: NoteList)
        requires slot { Slot (length self.old.slots.now) self.old.free }
        ensures free { self.new.free ≡ link_at (links self.old.slots.now) self.old.free }
        ensures records { self.new.slots.now ≡ set self.old.slots.now (self.old.free - 1) (record { content = Some list; next = 0 }) }
        ensures lender { SameLoan self.old.slots self.new.slots }
    {
        let record = Linked {
            content: Some(list),
            next: 0,
        };
        let head = chain::take(self.slots, &mut self.free, record).unwrap();
        self.high = self.high.max(head);
    }

    /// Lets a record hold another list.
    pub(crate) fn hold(&mut self, head: u16, list: NoteList)
        requires slot { Slot (length self.old.slots.now) head }
        requires high { head ≤ self.old.high }
        ensures high { self.new.high ≡ self.old.high }
        ensures free { self.new.free ≡ self.old.free }
        ensures records { self.new.slots.now ≡ with_list self.old.slots.now head (Some list) }
        ensures lender { SameLoan self.old.slots self.new.slots }
    {
        let slots = &mut *self.slots;
        chain::record_mut(slots, head).content = Some(list);
    }

    /// Gives back the record of a list that has become empty.
    pub(crate) fn give_back(&mut self, head: u16)
        requires inside { Slot (length self.old.slots.now) head }
        requires off { Off (links self.old.slots.now) self.old.free head }
        ensures free { self.new.free ≡ head }
        ensures records { self.new.slots.now ≡ set self.old.slots.now (head - 1) (record { content = None; next = self.old.free }) }
        ensures lender { SameLoan self.old.slots self.new.slots }
    {
        chain::release(self.slots, &mut self.free, head, Head::UNUSED);
    }
}
