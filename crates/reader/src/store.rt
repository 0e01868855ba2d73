// The sink that keeps what is read: records drawn from the free ones of a store.

ghost use Rattle.chain.specs.Chain.{SameLoan};
ghost use Rattle.records.specs.Building.{Stands};

use crate::sink::Sink;
use records::{Children, Head, Store};

impl<'a> Sink for Store<'a> {
    ghost rows = { λ t s r us. SameLoan s.slots t.slots × Stands s.slots.now s.free t.slots.now t.free r.first r.last us };

    fn none(&self) -> Children {
        Children::NONE
    }

    fn nest(&mut self, head: Head, row: Children) -> u16 {
        Store::nest(self, head, row)
    }

    fn push(&mut self, row: Children, child: u16) -> Children {
        Store::push(self, row, child)
    }
}
