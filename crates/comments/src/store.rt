// What a store of comments means: at each offset a list of leading and a list of trailing comments, by their numbers.
ghost use Rattle.std.specs.Prelude.{◌≡◌, ℕ, List, length, OnErr};
ghost use Rattle.std.specs.List.{slice_get};
ghost use Rattle.comments.specs.declared.store.Side.{Side};
ghost use Rattle.comments.specs.Filling.{Fills};
ghost use Rattle.comments.specs.Lists.{shifted};

use refusal::Refusal;

/// On which side of its record a comment stands: a record's leading comments are at its lo, its trailing ones at its hi.
#[derive(Clone, Copy, PartialEq, Eq, Debug)]
pub enum Side {
    Leading,
    Trailing,
}

/// Where a list of comments stands: on which side, at which offset.
#[derive(Clone, Copy, PartialEq, Eq, Debug)]
pub struct Spot {
    pub side: Side,
    pub offset: u32,
}

impl Side {
    /// This side of what is at an offset.
    pub fn at(self, offset: u32) -> Spot
        ensures { result ≡ record { side = self; offset = offset } }
    {
        Spot { side: self, offset }
    }
}

pub trait Store {
    // The list on a side at an offset.
    ghost lists: { Self → Side → ℕ → List ℕ };

    // For how many more comments there is room.
    ghost vacant: { Self → ℕ };

    /// Puts the list on a side at `from` to the outer side of that at `to`: a leading one before it, a trailing one after it.
    /// Then `from` is empty. Equal offsets change nothing.
    fn move_list(&mut self, side: Side, from: u32, to: u32)
        ensures moved { (at : Side) (k : ℕ) → lists self.new at k ≡ shifted side (lists self.old) from to at k }
        ensures vacant { vacant self.new ≡ vacant self.old };

    /// How many comments the list has.
    fn count(&self, spot: Spot) -> usize
        ensures value { result ≡ length (lists self.now spot.side spot.offset) };

    /// The comment at a rank of the list, which counts from 0; none past its end.
    fn comment(&self, spot: Spot, rank: usize) -> Option<u32>
        ensures value { result ≡ slice_get (lists self.now spot.side spot.offset) rank };
}

/// A store that takes comments one by one. What is only moved and asked about, as `carry` does, need not.
pub trait Fill: Store {
    /// Puts a comment last in a list. It is refused exactly where there is no room, and then nothing changes.
    fn add(&mut self, spot: Spot, comment: u32) -> Result<(), Refusal>
        ensures fills { Fills (Self.lists self.old) (Self.lists self.new) (Self.vacant self.old) (Self.vacant self.new) spot.side spot.offset comment result }
        ensures same { OnErr result (self.new ≡ self.old) };
}
