// What a child is read for, and whether an `in` may stand in the open in it.

ghost use Rattle.std.specs.Prelude.{◌≡◌};
ghost use Rattle.grammar.specs.Parser.{mode as mode_in};
ghost use Rattle.reader.specs.Table.{mode_of};

use kinds::Slot;

/// What is to be read.
#[derive(Clone, Copy, PartialEq, Eq, Debug)]
pub enum Goal {
    /// An expression for a slot.
    Expression(Slot),
    Statement,
    Block,
    /// A Var in the head of a `for`, without its `;`.
    Declaration,
    Property,
    /// A Name of a Var.
    Name,
}

/// May an `in` stand in the open in a child?
#[derive(Clone, Copy, PartialEq, Eq, Debug)]
pub enum Mode {
    /// As in its parent.
    Same,
    /// Always: the child stands between brackets, or is no part of a head.
    Free,
    /// Never: the child begins the head of a `for`.
    Shut,
}

/// Whether an `in` may stand in the open in a child.
pub fn allowed(mode: Mode, allow_in: bool) -> bool
    ensures { result ≡ mode_in (mode_of mode) allow_in }
{
    match mode {
        Mode::Same => allow_in,
        Mode::Free => true,
        Mode::Shut => false,
    }
}
