// What a caller holds of an outstanding tree: its pool's number and its root's slot. Each state is a type of its own: a type
// with a state parameter would take a trait, three empty types and three aliases, and a struct inside each a field more in
// every path.
ghost use Rattle.std.specs.Prelude.{◌≡◌};
ghost use Rattle.toolkit.specs.Keys.{key};

mod roots;

use records::Mark;
use refusal::Refusal;

/// A tree that can be cut, and fixed. It must be spent: only a call on its pool takes it.
pub struct Loaded {
    pool: u16,
    root: u16,
}

/// A tree that can be printed. It must be spent.
pub struct Fixed {
    pool: u16,
    root: u16,
}

/// A part that was cut from a tree. It must be spent: hung into a Hole, or discarded.
pub struct Piece {
    pool: u16,
    root: u16,
}

/// A tree of either type.
pub enum Tree {
    Loaded(Loaded),
    Fixed(Fixed),
}

/// What a refused call hands back, and why it refused.
pub struct Returned<T> {
    pub given: T,
    pub refusal: Refusal,
}

/// What a pool compares with its records: the number and the root of a tree, and the mark that its type stands for.
#[derive(Clone, Copy, PartialEq, Eq, Debug)]
pub(crate) struct Key {
    pub pool: u16,
    pub root: u16,
    pub mark: Mark,
}

impl Tree {
    pub(crate) fn key(&self) -> Key
        ensures { result ≡ key self.now }
    {
        match self {
            Tree::Loaded(tree) => Key {
                pool: tree.pool,
                root: tree.root,
                mark: Mark::Loaded,
            },
            Tree::Fixed(tree) => Key {
                pool: tree.pool,
                root: tree.root,
                mark: Mark::Fixed,
            },
        }
    }

    /// Ends a tree whose records are about to be given back.
    pub(crate) fn spend(self) {
        match self {
            Tree::Loaded(Loaded { pool: _, root: _ }) => {}
            Tree::Fixed(Fixed { pool: _, root: _ }) => {}
        }
    }
}
