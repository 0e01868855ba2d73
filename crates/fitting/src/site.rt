// Where a tree can stand.

use kinds::Slot;

/// Where a tree can stand in a record.
#[derive(Clone, Copy, PartialEq, Eq, Debug)]
pub enum Site {
    /// An expression in a slot.
    At(Slot),
    /// The expression of an ExprStmt: it does not begin with `{` or `function`.
    Start,
    /// The body of an Arrow: a Block, or an expression that does not begin with `{`.
    Body,
    /// The Block of a Fn.
    FunctionBody,
    /// A statement in a list, or as a body.
    Statement,
    /// The first body of an If with else: no `else` behind it would be its own.
    Closed,
    /// An expression that is the init of a For: no `in` in the open.
    Init,
    /// A Var that is the init of a For: no `in` in the open.
    VarInit,
    /// A Var on the left of a ForIn: one Name without a value.
    VarIn,
    /// A Prop.
    Property,
    /// A plain Name.
    PlainName,
    /// A Name of a Var with a value next to it.
    ValuedName,
    /// A key that is not computed.
    KeyName,
}
