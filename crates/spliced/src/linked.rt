// The records that the caller lends: each holds something, and leads to another.
ghost use Rattle.std.proofs.Common.{refl};

use chain::Link;

/// A record: what it holds, and the slot that it leads to.
#[derive(Clone, Copy, PartialEq, Eq, Debug)]
pub struct Linked<T> {
    pub(crate) content: T,
    pub(crate) next: u16,
}

impl<T> Link for Linked<T> {
    type Rest = T;

    ghost link = { λ r. r.next };

    ghost linked = { λ r v. record { content = r.content; next = v } };

    ghost rest = { λ r. r.content };

    ghost reads = { λ x v. refl };

    ghost again = { λ x v w. refl };

    ghost keeps = { λ x. refl };

    ghost others = { λ x v. refl };

    fn next(&self) -> u16 {
        self.next
    }

    fn set_next(&mut self, next: u16) {
        self.next = next;
    }
}
