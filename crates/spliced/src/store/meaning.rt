// The lists of comments as chains of notes: how they grow, how they are joined, and what they hold.
ghost use Rattle.std.specs.Prelude.{◌≡◌, ℕ, OnErr};
ghost use Rattle.chain.specs.Chain.{Beyond, SameLoan};
ghost use Rattle.comments.specs.declared.store.Side.{Side};
ghost use Rattle.comments.specs.Filling.{Fills};
ghost use Rattle.comments.specs.Lists.{shifted};
ghost use Rattle.spliced.specs.Heads.{front_of};
ghost use Rattle.spliced.specs.Store.{lists_in, spare};

use super::Spliced;
use crate::heads::NoteList;
use comments::{Fill, Side, Spot, Store};
use refusal::Refusal;

impl<'a> Store for Spliced<'a> {
    ghost lists = { lists_in };

    ghost vacant = { spare };

    fn move_list(&mut self, side: Side, from: u32, to: u32)
        ensures moved { (at : Side) (k : ℕ) → lists_in self.new at k ≡ shifted side (lists_in self.old) from to at k }
        ensures vacant { spare self.new ≡ spare self.old }
        ensures beyond { (Beyond self.old.notes.slots.now self.new.notes.slots.now) × (Beyond self.old.heads.slots.now self.new.heads.slots.now) }
        ensures lender { SameLoan self.old.notes.slots self.new.notes.slots × SameLoan self.old.heads.slots self.new.heads.slots }
    {
        if from == to {
            return;
        }
        let Some(source) = self.heads.find(side.at(from)) else {
            return;
        };
        let Some(target) = self.heads.find(side.at(to)) else {
            let list = NoteList {
                spot: side.at(to),
                ..source.list
            };
            self.heads.hold(source.head, list);
            return;
        };
        let front = outer(side, source.list, target.list);
        let back = outer(side, target.list, source.list);
        self.notes.join(front.last, back.first);
        let list = NoteList {
            first: front.first,
            last: back.last,
            ..target.list
        };
        self.heads.hold(target.head, list);
        self.heads.give_back(source.head);
    }

    // Tried: `map_or(0, |found| ..)` did not prove; its closure's result is unknown unless it has a clause of its own.
    fn count(&self, spot: Spot) -> usize {
        match self.heads.find(spot) {
            Some(found) => self.notes.count(found.list.first),
            None => 0,
        }
    }

    fn comment(&self, spot: Spot, rank: usize) -> Option<u32> {
        let found = self.heads.find(spot)?;
        self.notes.comment(found.list.first, rank)
    }
}

impl<'a> Fill for Spliced<'a> {
    #[tactic(auto, using(crate::proofs::Turns::next_note, crate::proofs::Turns::next_head, crate::proofs::Turns::has_room, crate::proofs::Turns::beyond_written))]
    fn add(&mut self, spot: Spot, comment: u32) -> Result<(), Refusal>
        ensures fills { Fills (lists_in self.old) (lists_in self.new) (spare self.old) (spare self.new) spot.side spot.offset comment result }
        ensures same { OnErr result (self.new ≡ self.old) }
        ensures beyond { (Beyond self.old.notes.slots.now self.new.notes.slots.now) × (Beyond self.old.heads.slots.now self.new.heads.slots.now) }
        ensures lender { SameLoan self.old.notes.slots self.new.notes.slots × SameLoan self.old.heads.slots self.new.heads.slots }
    {
        if self.spare() == 0 {
            return Err(Refusal::TooFewRecords { needed: 1 });
        }
        self.held += 1;
        let note = self.notes.draw(comment);
        match self.heads.find(spot) {
            Some(found) => {
                self.notes.join(found.list.last, note);
                let list = NoteList {
                    last: note,
                    ..found.list
                };
                self.heads.hold(found.head, list);
            }
            None => self.heads.draw(NoteList {
                spot,
                first: note,
                last: note,
            }),
        }
        Ok(())
    }
}

/// The one of two lists that comes first where `source` goes to the outer side of `target`.
fn outer(side: Side, source: NoteList, target: NoteList) -> NoteList
    ensures { result ≡ front_of side source target }
{
    match side {
        Side::Leading => source,
        Side::Trailing => target,
    }
}
