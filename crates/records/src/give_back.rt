// Giving a whole tree back, without recursion.
ghost use Rattle.std.specs.Prelude.{ℕ, List};
ghost use Rattle.records.specs.Siblings.{Siblings, Loose, Given};

use crate::record::Record;
use crate::slots::look;

/// Gives every record of the siblings at `root`, and of all below them, to the free chain. A first child is turned up before
/// its parent until a record has none, so no stack is needed: what is left is always one chain of siblings. It is no
/// iterator: each step changes the chain that it walks.
#[tactic(auto, using(crate::proofs::Steps::alive, crate::proofs::Steps::head_off))]
pub fn give_back_tree(slots: &mut [Record], free: &mut u16, root: u16)
    requires { ∥ ((f : Siblings) × (ks : List ℕ) × Loose slots.old free.old root f ks) ∥₁ }
    ensures { (f : Siblings) (ks : List ℕ) → Loose slots.old free.old root f ks → Given slots.old slots.new f ks free.new }
{
    let mut here = root;
    while here != 0 {
        let parent = look(slots, here);
        let first = parent.first;
        if first == 0 {
            chain::release(slots, free, here, Record::FREE);
            here = parent.next;
        } else {
            let child = look(slots, first);
            chain::record_mut(slots, here).first = child.next;
            chain::link_to(slots, first, here);
            here = first;
        }
    }
}
