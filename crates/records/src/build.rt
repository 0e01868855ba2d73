// Putting trees up from free records: a parent over a row of siblings, and a tree behind a row.
ghost use Rattle.std.specs.Prelude.{◌≡◌, ℕ, ◌<◌, List};
ghost use Rattle.grammar.specs.Tree.{Tree, Forest, nil, ◌▸◌, ◌⊕◌};
ghost use Rattle.records.specs.declared.record.Record.{Record};
ghost use Rattle.records.specs.Building.{rooted, Stands};

use crate::record::{Head, Mark, Record};

/// Draws a record for a parent, and puts it over the row that begins at `first` (0: it has no children). Answers 0 where no
/// record is left; nothing is promised then, since the row did not leave one.
pub fn nest(slots: &mut [Record], free: &mut u16, head: Head, first: u16) -> u16
    ensures row { (s : List Record) (from last : ℕ) (us : Forest) → Stands s from slots.old free.old first last us → Stands s from slots.new free.new result result (rooted head us ▸ nil) }
{
    let parent = Record {
        form: head.form,
        first,
        next: 0,
        lo: head.lo,
        hi: head.hi,
        mark: Mark::Unmarked,
    };
    // 0 and no Option, as it always could not fail: nothing is asked of the caller, and nothing promised without a record.
    chain::take(slots, free, parent).unwrap_or(0)
}

/// A row of siblings that grows at its end: the slots of its first and its last tree, both 0 while there is none.
// 0 and no Option: a parent's record, of fixed layout, keeps the first slot as it stands here.
#[derive(Clone, Copy, PartialEq, Eq, Debug)]
pub struct Children {
    pub first: u16,
    pub last: u16,
}

impl Children {
    pub const NONE: Children = Children { first: 0, last: 0 };

    /// The row that has one tree.
    pub fn one(slot: u16) -> Children
        ensures { result ≡ record { first = slot; last = slot } }
    {
        Children {
            first: slot,
            last: slot,
        }
    }

    /// The row with the tree at `child` behind it; that tree was put up after the row.
    pub fn push(self, slots: &mut [Record], child: u16) -> Children
        ensures row { (s t : List Record) (from free rest : ℕ) (us : Forest) (v : Tree) → Stands s from t free self.first self.last us → Stands t free slots.old rest child child (v ▸ nil) → Stands s from slots.new rest result.first result.last (us ⊕ (v ▸ nil)) }
    {
        if self.last == 0 {
            return Children::one(child);
        }
        // No row ends at what is no slot.
        if self.last > chain::last_slot(slots) {
            return self;
        }
        chain::link_to(slots, self.last, child);
        Children {
            first: self.first,
            last: child,
        }
    }
}
