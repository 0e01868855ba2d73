// The kinds of record, in the order of their ranks.

ghost use Rattle.std.specs.Prelude.{◌≡◌};
ghost use Rattle.kinds.specs.Kinds.{rank};

/// What a record is. `Free` is the kind of a record that stands in no tree; the others follow in the order of
/// their ranks, which count from 1, so that `kind as u8` is the rank.
#[derive(Clone, Copy, PartialEq, Eq, Debug)]
pub enum Kind {
    Free,
    Name,
    Num,
    Str,
    Word,
    This,
    Array,
    Object,
    Prop,
    Fn,
    Arrow,
    Unary,
    Update,
    Bin,
    Assign,
    Cond,
    Seq,
    Paren,
    Call,
    New,
    Member,
    Chain,
    Await,
    Yield,
    Script,
    ExprStmt,
    Var,
    Return,
    If,
    While,
    For,
    ForIn,
    Block,
    Labeled,
    Empty,
    Hole,
}

impl Kind {
    // A cast under a name, since the pages give the ranks and a contract pins them.
    /// The place in the list of kinds: 0 for a free record, 1 to 35 for the others.
    pub fn rank(self) -> u8
        ensures { result ≡ rank self }
    {
        self as u8
    }
}
