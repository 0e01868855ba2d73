// Putting two lists together, by one pass over the entries.
ghost use Rattle.std.specs.Prelude.{◌≡◌, ◌+◌, ◌^◌, ◌<◌, true, map, length};
ghost use Rattle.std.specs.List.{AllByRecursion};
ghost use Rattle.register.specs.Listing.{here};
ghost use Rattle.register.specs.Joins.{moved_to};

use crate::entry::Entry;
use comments::Side;

/// Two lists that become one: what stands at `second` goes behind what stands at `first`, and all of it stands at `to` then.
#[derive(Clone, Copy, PartialEq, Eq, Debug)]
pub struct Joining {
    pub side: Side,
    pub first: u32,
    pub second: u32,
    pub to: u32,
    /// How many comments stand at `first`.
    pub ahead: usize,
}

impl Joining {
    /// The entry afterwards.
    fn rejoined(self, entry: Entry) -> Entry
        requires { here self.side self.second entry ≡ true → entry.rank + self.ahead < 2 ^ 64 }
        ensures { result ≡ moved_to self.side self.first self.second self.to self.ahead entry }
    {
        if entry.is_in(self.side.at(self.second)) {
            Entry {
                spot: self.side.at(self.to),
                rank: entry.rank + self.ahead,
                ..entry
            }
        } else if entry.is_in(self.side.at(self.first)) {
            Entry {
                spot: self.side.at(self.to),
                ..entry
            }
        } else {
            entry
        }
    }
}

/// Puts two lists together.
pub fn rejoin_each(entries: &mut [Entry], joining: Joining)
    requires { AllByRecursion (λ e. here joining.side joining.second e ≡ true → e.rank + joining.ahead < length entries.old) entries.old }
    ensures { entries.new ≡ map (moved_to joining.side joining.first joining.second joining.to joining.ahead) entries.old }
{
    for e in entries.iter_mut() {
        *e = joining.rejoined(*e);
    }
}
