// Where the trees go that are read: parents are put over rows of siblings, and trees behind rows.

ghost use Rattle.grammar.specs.Tree.{Forest, nil};
ghost use Rattle.records.specs.declared.build.Children.{Children};
ghost use Rattle.reader.specs.Rows.{Nested, Pushed};

use records::{Children, Head};

/// Takes the trees that are read, children before their parent.
pub trait Sink {
    // `rows t s r us`: since s, and as t is now, the trees us stand in the row r
    ghost rows: { Self → Self → Children → Forest → Type 0 };

    /// A row of no trees.
    fn none(&self) -> Children
        ensures { rows self.now self.now result nil };

    /// Puts a parent over a row, and says where it is kept.
    fn nest(&mut self, head: Head, row: Children) -> u16
        ensures { Nested rows self.old self.new head row result };

    /// Puts the tree kept at `child` behind a row; that tree was put up after the row.
    fn push(&mut self, row: Children, child: u16) -> Children
        ensures { Pushed rows self.old self.new row child result };
}

/// Keeps nothing: for a reading that only decides and counts. The slots that it answers mean nothing.
#[derive(Drop)]
pub struct Nothing;

impl Sink for Nothing {
    ghost rows = { λ t s r us. Unit {0} };

    fn none(&self) -> Children {
        Children::NONE
    }

    fn nest(&mut self, _head: Head, _row: Children) -> u16 {
        0
    }

    fn push(&mut self, row: Children, _child: u16) -> Children {
        row
    }
}
