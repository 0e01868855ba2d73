// The root's slot of what a caller holds, so that the tree can be looked at.
ghost use Rattle.std.specs.Prelude.{◌≡◌};

use crate::trees::{Fixed, Loaded, Piece};

impl Loaded {
    /// The slot of the root.
    pub fn root(&self) -> u16
        ensures { result ≡ self.now.root }
    {
        self.root
    }
}

impl Fixed {
    /// The slot of the root.
    pub fn root(&self) -> u16
        ensures { result ≡ self.now.root }
    {
        self.root
    }
}

impl Piece {
    /// The slot of the root.
    pub fn root(&self) -> u16
        ensures { result ≡ self.now.root }
    {
        self.root
    }
}
