// The chain of unused records: making it, drawing from it, giving back to it, and what a walk along any chain needs.
// Records and head stay two parameters: a struct of both saves its three users three lines each, and lengthens every path.
ghost use Rattle.std.specs.Prelude.{◌≡◌, ℕ, ◌-◌, ◌<◌, List, ◌∷◌, map, length, MatchOption, slice_index_or, slice_set};
ghost use Rattle.std.specs.Borrow.{sem};
ghost use Rattle.chain.specs.Chain.{LendsRecord, room, Slot, link_at, Chain, Off, Drawn, slots_from, after, relinked, Beyond};
ghost use Rattle.chain.specs.Laws.{ChainLaws};

use crate::bound::Link;

/// The last slot of the records: those past 65,535 have none, and are never touched.
pub fn last_slot<T>(slots: &[T]) -> u16
    ensures { result ≡ room (length slots.now) }
{
    u16::try_from(slots.len()).unwrap_or(u16::MAX)
}

/// Chains all slots in their order, and answers where that chain begins.
pub fn make<T: Link>(slots: &mut [T]) -> u16
    ensures chain { Chain (map T.link slots.new) result (slots_from 1 (room (length slots.old))) }
    ensures records { (i : ℕ) (d : T) → i < room (length slots.old) → slice_index_or slots.new i d ≡ T.linked (slice_index_or slots.old i d) (after (room (length slots.old)) i) }
    ensures beyond { Beyond slots.old slots.new }
{
    let mut head = 0;
    for slot in (1..=last_slot(slots)).rev() {
        link_to(slots, slot, head);
        head = slot;
    }
    head
}

/// The record of a slot; none where the number is no slot.
pub fn record_at<T>(slots: &[T], slot: u16) -> Option<&T>
    ensures { MatchOption result (Slot (length slots.now) slot → ⊥) (λ found. Slot (length slots.now) slot × ((d : T) → found.now ≡ slice_index_or slots.now (slot - 1) d)) }
{
    slots.get(usize::from(slot).checked_sub(1)?)
}

/// The record of a slot, to be written.
pub fn record_mut<T>(slots: &mut [T], slot: u16) -> &mut T
    requires { Slot (length slots.old) slot }
    ensures* writes_back { sem 𝓛 (LendsRecord T.row slots.entry slot result) }
    ensures value { (d : T) → result.now ≡ slice_index_or slots.old (slot - 1) d }
{
    &mut slots[usize::from(slot) - 1]
}

/// The link of a slot's record; none where the number is no slot.
pub fn next_of<T: Link>(slots: &[T], slot: u16) -> Option<u16>
    ensures { MatchOption result (Slot (length slots.now) slot → ⊥) (λ next. Slot (length slots.now) slot × (next ≡ link_at (map T.link slots.now) slot)) }
{
    Some(record_at(slots, slot)?.next())
}

/// Takes the first slot off the chain that begins at `head`; none comes from an empty chain. The record itself stays as it
/// is, its link too.
pub fn draw<T: Link>(slots: &[T], head: &mut u16) -> Option<u16>
    ensures answer { MatchOption result ((Slot (length slots.now) head.old → ⊥) × (head.new ≡ head.old)) (λ k. (k ≡ head.old) × Slot (length slots.now) k × (head.new ≡ link_at (map T.link slots.now) k)) }
    ensures chain { (ks : List ℕ) → Chain (map T.link slots.now) head.old ks → Drawn (map T.link slots.now) ks result head.new }
{
    let first = *head;
    *head = next_of(slots, first)?;
    Some(first)
}

/// Leads a slot's record to `next`, and leaves every other record as it was.
pub fn link_to<T: Link>(slots: &mut [T], slot: u16, next: u16)
    requires inside { Slot (length slots.old) slot }
    ensures records { (d : T) → slots.new ≡ relinked T.linked slots.old slot next d }
{
    record_mut(slots, slot).set_next(next);
}

/// Puts a slot first on the chain that begins at `head`. That is lawful for a slot that is not on the chain: given back
/// twice, it would lead to itself, and all behind it would be lost. So whoever gives back owes that fact.
pub fn give_back<T: Link>(slots: &mut [T], head: &mut u16, slot: u16)
    requires inside { Slot (length slots.old) slot }
    requires off { Off (map T.link slots.old) head.old slot }
    ensures head { head.new ≡ slot }
    ensures chain { (ks : List ℕ) → Chain (map T.link slots.old) head.old ks → Chain (map T.link slots.new) slot (slot ∷ ks) }
    ensures records { (d : T) → slots.new ≡ relinked T.linked slots.old slot head.old d }
{
    link_to(slots, slot, *head);
    *head = slot;
}

/// Takes the first slot off the chain that begins at `head`, and writes its record; none comes from an empty chain.
pub fn take<T: Link + Copy>(slots: &mut [T], head: &mut u16, content: T) -> Option<u16>
    ensures { MatchOption result
        ((Slot (length slots.old) head.old → ⊥) × (head.new ≡ head.old) × (slots.new ≡ slots.old))
        (λ k. (k ≡ head.old) × Slot (length slots.old) k × (head.new ≡ link_at (map T.link slots.old) k) × (slots.new ≡ slice_set slots.old (k - 1) content)) }
{
    let slot = draw(slots, head)?;
    *record_mut(slots, slot) = content;
    Some(slot)
}

/// Gives a slot back, and leaves its record `blank` but for the link.
pub fn release<T: Link + Copy>(slots: &mut [T], head: &mut u16, slot: u16, blank: T)
    requires inside { Slot (length slots.old) slot }
    requires off { Off (map T.link slots.old) head.old slot }
    ensures head { head.new ≡ slot }
    ensures records { slots.new ≡ slice_set slots.old (slot - 1) (T.linked blank head.old) }
{
    let next = *head;
    give_back(slots, head, slot);
    *record_mut(slots, slot) = blank;
    link_to(slots, slot, next);
}

/// How many slots the chain that begins at `head` has. The walk takes no more steps than there are slots, so it ends whatever
/// the records hold.
pub fn count<T: Link>(slots: &[T], head: u16) -> u16
    ensures { (ks : List ℕ) → Chain (map T.link slots.now) head ks → result ≡ length ks }
{
    let last = last_slot(slots);
    let mut at = head;
    for steps in 0..last {
        let Some(next) = next_of(slots, at) else {
            return steps;
        };
        at = next;
    }
    last
}

/// A head has one chain, on which no slot stands twice, and which is no longer than there are slots.
pub fn chain_laws()
    ensures { ChainLaws }
{}
