// The record of a slot, read and marked, and all records made free.
ghost use Rattle.std.specs.Prelude.{◌≡◌, ℕ, length};
ghost use Rattle.chain.specs.Chain.{room, Slot, Chain, slots_from, Beyond};
ghost use Rattle.records.specs.Record.{at, links, vacant, stamped};

use crate::record::{Mark, Record};

/// The record of a slot.
pub fn look(slots: &[Record], slot: u16) -> Record
    requires { Slot (length slots.now) slot }
    ensures { result ≡ at slots.now slot }
{
    *chain::record_at(slots, slot).unwrap()
}

/// Marks the record of a slot.
pub fn stamp(slots: &mut [Record], slot: u16, mark: Mark)
    requires { Slot (length slots.old) slot }
    ensures { slots.new ≡ stamped slots.old slot mark }
{
    chain::record_mut(slots, slot).mark = mark;
}

/// Makes every record free, all of them on one chain, and answers where that chain begins.
// Not one function in `chain`: tried, and `fill` of any `T: Copy` did not prove that its `clone` cannot fail.
pub fn make(slots: &mut [Record]) -> u16
    ensures chain { Chain (links slots.new) result (slots_from 1 (room (length slots.old))) }
    ensures records { (k : ℕ) → Slot (length slots.old) k → at slots.new k ≡ vacant (at slots.new k).next }
    ensures beyond { Beyond slots.old slots.new }
{
    let last = usize::from(chain::last_slot(slots));
    slots[..last].fill(Record::FREE);
    chain::make(slots)
}
