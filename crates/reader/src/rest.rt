// What is left to read of a record, as a table: each state says which token or which child comes next.

ghost use Rattle.std.specs.Prelude.{◌≡◌};
ghost use Rattle.reader.specs.Table.{tested_word};

use crate::goal::{Goal, Mode};
use kinds::{Form, Own};
use token::{Code, Word};

/// A list between brackets, its parts separated by commas.
#[derive(Clone, Copy, PartialEq, Eq, Debug)]
pub enum List {
    /// The elements of an array.
    Elements,
    /// The properties of an object.
    Properties,
    /// The arguments of a call, a `new` or a link of an optional chain.
    Arguments(Form),
    /// The parameters of an arrow function.
    ArrowParameters,
    /// The parameters of a function.
    Parameters(Own),
}

/// What holds a run of statements.
#[derive(Clone, Copy, PartialEq, Eq, Debug)]
pub enum Body {
    Block,
    Script,
}

/// A statement with a test in parentheses and a body.
#[derive(Clone, Copy, PartialEq, Eq, Debug)]
pub enum Tested {
    If,
    While,
}

impl From<Tested> for Code {
    ghost from_gives = { λ tested code. code ≡ tested_word tested };

    fn from(tested: Tested) -> Code {
        match tested {
            Tested::If => Code::Word(Word::If),
            Tested::While => Code::Word(Word::While),
        }
    }
}

/// Where a Var stands: a statement ends with `;`, a head does not.
#[derive(Clone, Copy, PartialEq, Eq, Debug)]
pub enum Declared {
    Statement,
    Head,
}

/// What is left to read of a record.
// A value and no closure: a closure that is kept has to be boxed, which needs a heap.
#[derive(Clone, Copy, PartialEq, Eq, Debug)]
pub enum Rest {
    /// Nothing: the record is of this form.
    Done(Form),
    /// One token.
    Token(Code, Form),
    /// One child.
    Last(Mode, Goal, Form),
    /// A token and one child.
    TokenLast(Code, Mode, Goal, Form),
    /// A child and the token that closes it.
    Closed(Goal, Code, Form),
    /// A child between two tokens.
    Enclosed(Code, Goal, Code, Form),
    /// A list: from its opening bracket, behind it, behind one of its parts, behind a comma.
    Open(List),
    Items(List),
    More(List),
    Next(List),
    /// An arrow function: from its `=>`, behind it.
    ArrowSign,
    ArrowBody,
    /// A function: from its word, behind it.
    Function,
    FunctionHead,
    /// A `new`: from its word, behind it, behind what is made.
    New,
    NewCallee,
    NewArguments,
    /// A `yield`: from its word, behind it.
    Yield,
    YieldOperand,
    /// A sequence: from a comma, behind it, behind an element.
    Comma,
    Element,
    MoreElements,
    /// A conditional: from its `?`, behind it.
    Question,
    Middle,
    /// A link of an optional chain: from its `?.`, behind it.
    OptionalSign,
    Link,
    /// A Block from its `{`; statements.
    Block,
    Statements(Body),
    /// An `if` or a `while`: from its word, from its `(`, behind it, from its `)`, behind it.
    Test(Tested),
    TestOpen(Tested),
    TestInside(Tested),
    TestClose(Tested),
    TestBody(Tested),
    /// Behind the first body of an `if`.
    Else,
    /// A `return`: from its word, behind it.
    Return,
    ReturnValue,
    /// A statement that begins with an expression, and what is behind this.
    Plain,
    PlainEnd,
    /// A `for`: from its word, from its `(`, behind it, behind its first part.
    For,
    ForOpen,
    ForInit,
    ForHead,
    /// The object of a `for .. in`.
    ForObject,
    /// A `for` behind its first `;`, from its second, behind it; which parts before are there.
    ForTest { init: bool },
    ForSecond { init: bool },
    ForUpdate { init: bool, test: bool },
    /// A property; its computed key, and the `]` behind it.
    Property,
    ComputedKey,
    KeyClose,
    /// A Var: from its word, before a Name, behind a Name, before a value, behind a Name with its value.
    Var(Declared),
    Names(Declared),
    Bound(Declared),
    Value(Declared),
    MoreNames(Declared),
}
