// How many records stand below another, and how deep they nest.

ghost use Rattle.std.specs.Prelude.{◌≡◌, ◌+◌, ◌^◌, ◌<◌, max};

/// A number of records and how deep they nest. Of any value of it nothing is asked: that a tree nests no deeper than it has
/// records is a law of trees, and shown where it is needed.
#[derive(Clone, Copy, PartialEq, Eq, Debug)]
pub struct Extent {
    pub records: usize,
    pub depth: usize,
}

impl Extent {
    pub const NONE: Extent = Extent {
        records: 0,
        depth: 0,
    };

    /// These and a record above them all.
    pub fn raised(self) -> Extent
        requires few { self.records + 1 < 2 ^ 64 }
        requires nests { self.depth + 1 < 2 ^ 64 }
        ensures records { result.records ≡ self.records + 1 }
        ensures depth { result.depth ≡ self.depth + 1 }
    {
        Extent {
            records: self.records + 1,
            depth: self.depth + 1,
        }
    }

    /// These and others beside them.
    pub fn beside(self, other: Extent) -> Extent
        requires { self.records + other.records < 2 ^ 64 }
        ensures records { result.records ≡ self.records + other.records }
        ensures depth { result.depth ≡ max self.depth other.depth }
    {
        Extent {
            records: self.records + other.records,
            depth: self.depth.max(other.depth),
        }
    }
}
