// The record of one comment.
ghost use Rattle.std.specs.Prelude.{◌≡◌};
ghost use Rattle.register.specs.Listing.{here};

use comments::{Side, Spot};

/// One comment: the list that it stands in, and its rank in it, which counts from 0.
#[derive(Clone, Copy, PartialEq, Eq, Debug)]
pub struct Entry {
    pub comment: u32,
    pub spot: Spot,
    pub rank: usize,
}

impl Entry {
    /// What a record may hold before a register uses it.
    pub const UNUSED: Entry = Entry {
        comment: 0,
        spot: Spot {
            side: Side::Leading,
            offset: 0,
        },
        rank: 0,
    };

    /// Whether the entry stands in a list. A function, since it carries the clause that ties spots to `here`.
    pub(crate) fn is_in(self, spot: Spot) -> bool
        ensures { result ≡ here spot.side spot.offset self }
    {
        self.spot == spot
    }
}
