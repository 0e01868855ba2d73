// The caller's records with the head of their free chain: what the calls of a pool work on.
ghost use Rattle.std.specs.Prelude.{◌≡◌, ℕ, ◌<◌, ◌≤◌, List, length, MatchOption};
ghost use Rattle.chain.specs.Chain.{room, Slot, Chain, slots_from, Beyond, SameLoan};
ghost use Rattle.records.specs.declared.record.Mark.TheVariants.{Unmarked};
ghost use Rattle.records.specs.Record.{at, links, vacant, stamped};
ghost use Rattle.grammar.specs.Tree.{Tree, Forest, nil, ◌▸◌, ◌⊕◌};
ghost use Rattle.records.specs.declared.record.Record.{Record};
ghost use Rattle.records.specs.Siblings.{Siblings, Loose, Given};
ghost use Rattle.records.specs.Building.{rooted, Stands};

use crate::build::Children;
use crate::give_back::give_back_tree;
use crate::record::{Head, Mark, Record};
use crate::{build, slots};

/// The records, and where the chain of the free ones begins.
// Not one struct with `Notes` and `Heads`: that saves three lines in each, and adds a field to the path in every clause.
#[derive(Drop)]
pub struct Store<'a> {
    pub slots: &'a mut [Record],
    pub free: u16,
}

impl<'a> Store<'a> {
    /// All records free.
    pub fn new(slots: &'a mut [Record]) -> Self
        ensures chain { Chain (links result.slots.now) result.free (slots_from 1 (room (length slots.old))) }
        ensures records { (k : ℕ) → Slot (length slots.old) k → at result.slots.now k ≡ vacant (at result.slots.now k).next }
        ensures beyond { Beyond slots.old result.slots.now }
        ensures lender { SameLoan slots.entry result.slots }
    {
        let free = slots::make(slots);
        Store { slots, free }
    }

    /// How many records are free.
    pub fn count_free(&self) -> u16
        ensures { (ks : List ℕ) → Chain (links self.now.slots.now) self.now.free ks → result ≡ length ks }
    {
        chain::count(self.slots, self.free)
    }

    /// The mark of a slot's record; none where the number is no slot.
    pub fn mark_of(&self, slot: u16) -> Option<Mark>
        ensures { MatchOption result (Slot (length self.now.slots.now) slot → ⊥) (λ m. Slot (length self.now.slots.now) slot × (m ≡ (at self.now.slots.now slot).mark)) }
    {
        Some(chain::record_at(self.slots, slot)?.mark)
    }

    /// Takes the mark off a root, and gives back its tree.
    pub fn give_back(&mut self, root: u16)
        requires inside { Slot (length self.old.slots.now) root }
        requires loose { ∥ ((f : Siblings) × (ks : List ℕ) × Loose self.old.slots.now self.old.free root f ks) ∥₁ }
        ensures length { length self.new.slots.now ≡ length self.old.slots.now }
        ensures given { (f : Siblings) (ks : List ℕ) → Loose self.old.slots.now self.old.free root f ks
            → Given (stamped self.old.slots.now root Unmarked) self.new.slots.now f ks self.new.free }
        ensures lender { SameLoan self.old.slots self.new.slots }
    {
        slots::stamp(self.slots, root, Mark::Unmarked);
        give_back_tree(self.slots, &mut self.free, root);
    }

    // `nest` and `push` stand over slices too: those lend nothing, so their clauses and proofs are free of the loan.

    /// Draws a record for a parent and puts it over its children.
    pub fn nest(&mut self, head: Head, children: Children) -> u16
        ensures row { (s : List Record) (from last : ℕ) (us : Forest) → Stands s from self.old.slots.now self.old.free children.first last us
            → Stands s from self.new.slots.now self.new.free result result (rooted head us ▸ nil) }
        ensures lender { SameLoan self.old.slots self.new.slots }
    {
        build::nest(self.slots, &mut self.free, head, children.first)
    }

    /// The row with the tree at `child` behind it; that tree was put up after the row.
    pub fn push(&mut self, children: Children, child: u16) -> Children
        ensures row { (s t : List Record) (from free : ℕ) (us : Forest) (v : Tree) → Stands s from t free children.first children.last us → Stands t free self.old.slots.now self.old.free child child (v ▸ nil)
            → Stands s from self.new.slots.now self.new.free result.first result.last (us ⊕ (v ▸ nil)) }
        ensures lender { SameLoan self.old.slots self.new.slots }
    {
        children.push(self.slots, child)
    }
}
