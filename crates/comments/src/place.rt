// Where something stands in a text, and from where to where its comments go.
ghost use Rattle.std.specs.Prelude.{◌++◌, Some, codes, decimal};

use std::fmt;

/// A part of the text, from the offset of its first byte to the offset behind its last. Printed as `lo to hi`.
#[derive(Clone, Copy, PartialEq, Eq, Debug)]
pub struct Place {
    pub lo: u32,
    pub hi: u32,
}

impl fmt::Display for Place {
    ghost output = { λ p. Some (decimal p.lo ++ (codes " to " ++ decimal p.hi)) };

    fn fmt<W: fmt::Write>(&self, f: &mut fmt::Formatter<W>) -> fmt::Result {
        let Place { lo, hi } = *self;
        write!(f, "{lo} to {hi}")
    }
}

/// The comments of what stood at `from` go to what stands at `to`.
#[derive(Clone, Copy, PartialEq, Eq, Debug)]
pub struct Move {
    pub from: Place,
    pub to: Place,
}
