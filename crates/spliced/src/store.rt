// The comment store of spliced chains, over the records that its caller lends.
ghost use Rattle.spliced.specs.Layout.{Laid};

use crate::heads::Heads;
use crate::notes::Notes;

mod calls;
mod meaning;

/// A store: the notes, the heads of the lists that are not empty, and how many comments are held. Each record is unused, or in
/// the one list that it belongs to.
#[derive(Drop)]
pub struct Spliced<'a> {
    notes: Notes<'a>,
    heads: Heads<'a>,
    held: u16,
    ghost laid: { ∥ Laid notes.slots.now heads.slots.now notes.free heads.free held ∥₁ },
}
