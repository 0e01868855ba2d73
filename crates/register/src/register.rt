// The register: the caller's records, and which of them are in use.
ghost use Rattle.std.specs.Prelude.{◌≤◌, length, take};
ghost use Rattle.register.specs.Listing.{Sound};

use crate::entry::Entry;

/// The caller's records, of which the first `used` are entries: the caller lends them, so they are not a `Vec`. In each list
/// every rank below the list's length is that of exactly one entry, and no other rank is that of any.
#[derive(Drop)]
pub struct Register<'a> {
    pub(crate) slots: &'a mut [Entry],
    pub(crate) used: usize,
    ghost inside: { used ≤ length slots.now },
    ghost sound: { Sound (take used slots.now) },
}
