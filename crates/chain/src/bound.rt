// What a record needs in order to stand on a chain.
// The trait and its laws serve both record types. One generic struct would put `content` into every path.
ghost use Rattle.std.specs.Prelude.{◌≡◌, ℕ};

/// A record with a link. `link` is the slot that it leads to, `linked` the record with another link, and `rest` all that
/// the record holds besides.
pub trait Link: Sized {
    type Rest;

    ghost link: { Self → ℕ };

    ghost linked: { Self → ℕ → Self };

    ghost rest: { Self → Self.Rest };

    fn next(&self) -> u16
        ensures { result ≡ link self.now };

    fn set_next(&mut self, next: u16)
        ensures { self.new ≡ linked self.old next };

    // The link reads back as set.
    ghost reads: { (x : Self) (v : ℕ) → link (linked x v) ≡ v };

    // Setting again replaces.
    ghost again: { (x : Self) (v w : ℕ) → linked (linked x v) w ≡ linked x w };

    // Setting what is there changes nothing.
    ghost keeps: { (x : Self) → linked x (link x) ≡ x };

    // Nothing else of the record changes.
    ghost others: { (x : Self) (v : ℕ) → rest (linked x v) ≡ rest x };
}
