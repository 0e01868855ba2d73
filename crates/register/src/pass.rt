// What a pass over the entries finds.
ghost use Rattle.std.specs.Prelude.{◌≡◌, ◌<◌, count_by, MatchOption};
ghost use Rattle.register.specs.Listing.{here, ranked, comment_at};

use crate::entry::Entry;
use comments::Spot;

/// How many of the entries stand in a list.
pub fn count_in(entries: &[Entry], spot: Spot) -> usize
    ensures { result ≡ count_by (here spot.side spot.offset) entries.now }
{
    // Tried: a `for` that counts. It takes half the time where all entries are in the list, and up to twice where few are.
    entries.iter().filter(|e| e.is_in(spot)).count()
}

/// The comment of the entry that has a rank in a list.
pub fn comment_in(entries: &[Entry], spot: Spot, rank: usize) -> Option<u32>
    ensures { MatchOption result (count_by (ranked spot.side spot.offset rank) entries.now ≡ 0) (λ c. (0 < count_by (ranked spot.side spot.offset rank) entries.now) × (c ≡ comment_at entries.now spot.side spot.offset rank)) }
{
    entries
        .iter()
        .find(|e| e.is_in(spot) && e.rank == rank)
        .map(|e| e.comment)
}
