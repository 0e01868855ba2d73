// A record, its mark, and its place on a chain.
ghost use Rattle.std.specs.Prelude.{◌≡◌};
ghost use Rattle.records.specs.Record.{tail, relinked, mark_number};
ghost use Rattle.std.proofs.Common.{refl};

use chain::Link;
use kinds::Form;

/// What a record is the root of. Only the root of an outstanding tree is marked.
#[derive(Clone, Copy, PartialEq, Eq, Debug)]
pub enum Mark {
    Unmarked,
    Loaded,
    Fixed,
    Piece,
}

impl Mark {
    // A cast under a name, since the pages give the numbers and a contract pins them.
    /// 1 for the root of a loaded tree, 2 of a fixed one, 3 of a piece, 0 for every other record.
    pub fn number(self) -> u8
        ensures { result ≡ mark_number self }
    {
        self as u8
    }
}

/// One record: its form (a kind with its operator), its first child and its next sibling, its place in the source text,
/// and its mark. A free record has the form `Free`, and `next` leads along the free chain. Links are slots of 16 bits, 0 for
/// none: an `Option` would make every record that the caller lends larger.
#[derive(Clone, Copy, PartialEq, Eq, Debug)]
pub struct Record {
    pub form: Form,
    pub first: u16,
    pub next: u16,
    pub lo: u32,
    pub hi: u32,
    pub mark: Mark,
}

/// What a record says besides its links and its mark: its form and its place in the source text.
#[derive(Clone, Copy, PartialEq, Eq, Debug)]
pub struct Head {
    pub form: Form,
    pub lo: u32,
    pub hi: u32,
}

impl Record {
    /// A record that stands in no tree.
    pub const FREE: Record = Record {
        form: Form::Free,
        first: 0,
        next: 0,
        lo: 0,
        hi: 0,
        mark: Mark::Unmarked,
    };
}

/// What a record holds besides its link.
#[derive(Clone, Copy, PartialEq, Eq, Debug)]
pub struct Tail {
    pub form: Form,
    pub first: u16,
    pub lo: u32,
    pub hi: u32,
    pub mark: Mark,
}

impl Link for Record {
    type Rest = Tail;

    ghost link = { λ r. r.next };

    ghost linked = { relinked };

    ghost rest = { tail };

    ghost reads = { λ x v. refl };

    ghost again = { λ x v w. refl };

    ghost keeps = { λ x. refl };

    ghost others = { λ x v. refl };

    fn next(&self) -> u16 {
        self.next
    }

    fn set_next(&mut self, next: u16) {
        self.next = next;
    }
}
