// The forms: a kind with what a record of that kind holds besides its children.

ghost use Rattle.std.specs.Prelude.{◌≡◌};
ghost use Rattle.kinds.specs.Kinds.{kind_of};

use crate::kind::Kind;
use crate::operator::{BinaryOperator, Side, UnaryOperator, UpdateOperator};
use token::AssignOperator;

/// Whether a Name of a Var has a value next to it. Everywhere else a Name is `Plain`.
#[derive(Clone, Copy, PartialEq, Eq, Debug)]
pub enum Binding {
    Plain,
    Valued,
}

/// The words that are values.
#[derive(Clone, Copy, PartialEq, Eq, Debug)]
pub enum Constant {
    Null,
    True,
    False,
}

/// How a property is named: by a fixed name (in an object also by a string or a number), or by an expression in
/// square brackets.
#[derive(Clone, Copy, PartialEq, Eq, Debug)]
pub enum Key {
    Fixed,
    Computed,
}

/// Whether a function has a name of its own.
#[derive(Clone, Copy, PartialEq, Eq, Debug)]
pub enum Own {
    Nameless,
    Named,
}

/// Whether a `new` has a list of arguments.
#[derive(Clone, Copy, PartialEq, Eq, Debug)]
pub enum Arguments {
    Listed,
    Unlisted,
}

/// What a link of an optional chain does to the value before it.
#[derive(Clone, Copy, PartialEq, Eq, Debug)]
pub enum Link {
    /// `a?.b`, `a?.b.c`
    Name,
    /// `a?.[b]`, `a?.b[c]`
    Key,
    /// `a?.(b)`, `a?.b(c)`
    Call,
}

/// How a link of an optional chain begins: with `?.`, or as a tail without it.
#[derive(Clone, Copy, PartialEq, Eq, Debug)]
pub enum Entry {
    Optional,
    Tail,
}

/// What stood where a hole is.
#[derive(Clone, Copy, PartialEq, Eq, Debug)]
pub enum Sort {
    Expression,
    Statement,
}

/// A kind with its operator, or with which of its optional parts are there. A free record has neither.
#[derive(Clone, Copy, PartialEq, Eq, Debug)]
pub enum Form {
    Free,
    Name(Binding),
    Num,
    Str,
    Word(Constant),
    This,
    Array,
    Object,
    Prop(Key),
    Fn(Own),
    Arrow,
    Unary(UnaryOperator),
    Update(UpdateOperator, Side),
    Bin(BinaryOperator),
    Assign(AssignOperator),
    Cond,
    Seq,
    Paren,
    Call,
    New(Arguments),
    Member(Key),
    Chain(Link, Entry),
    Await,
    Yield,
    Script,
    ExprStmt,
    Var,
    Return,
    If,
    While,
    /// Which of the three parts of the head are there.
    For {
        init: bool,
        test: bool,
        update: bool,
    },
    ForIn,
    Block,
    Labeled,
    Empty,
    Hole(Sort),
}

impl Form {
    pub fn kind(self) -> Kind
        ensures { result ≡ kind_of self }
    {
        match self {
            Form::Free => Kind::Free,
            Form::Name(_) => Kind::Name,
            Form::Num => Kind::Num,
            Form::Str => Kind::Str,
            Form::Word(_) => Kind::Word,
            Form::This => Kind::This,
            Form::Array => Kind::Array,
            Form::Object => Kind::Object,
            Form::Prop(_) => Kind::Prop,
            Form::Fn(_) => Kind::Fn,
            Form::Arrow => Kind::Arrow,
            Form::Unary(_) => Kind::Unary,
            Form::Update(_, _) => Kind::Update,
            Form::Bin(_) => Kind::Bin,
            Form::Assign(_) => Kind::Assign,
            Form::Cond => Kind::Cond,
            Form::Seq => Kind::Seq,
            Form::Paren => Kind::Paren,
            Form::Call => Kind::Call,
            Form::New(_) => Kind::New,
            Form::Member(_) => Kind::Member,
            Form::Chain(_, _) => Kind::Chain,
            Form::Await => Kind::Await,
            Form::Yield => Kind::Yield,
            Form::Script => Kind::Script,
            Form::ExprStmt => Kind::ExprStmt,
            Form::Var => Kind::Var,
            Form::Return => Kind::Return,
            Form::If => Kind::If,
            Form::While => Kind::While,
            Form::For { .. } => Kind::For,
            Form::ForIn => Kind::ForIn,
            Form::Block => Kind::Block,
            Form::Labeled => Kind::Labeled,
            Form::Empty => Kind::Empty,
            Form::Hole(_) => Kind::Hole,
        }
    }
}
