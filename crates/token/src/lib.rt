// A token: what it is and where it stands in the source text.

#![tactic(auto)]

pub mod operator;
pub mod punctuator;
pub mod word;

ghost use Rattle.std.specs.Prelude.{◌≡◌};
ghost use Rattle.token.specs.Same.{DecidesEquality, same_code};

pub use operator::{AssignOperator, Operator};
pub use punctuator::Punctuator;
pub use word::Word;

/// What a token is. A name, a number and a string are spelled by whoever wrote the source; every other code has
/// one spelling, so the code alone tells it.
#[derive(Clone, Copy, PartialEq, Eq, Debug)]
pub enum Code {
    /// An identifier, as `price`.
    Name,
    /// A number, as `0.19`.
    Number,
    /// A string with its quotes, as `"net"`.
    String,
    Word(Word),
    Punctuator(Punctuator),
    Operator(Operator),
    AssignOperator(AssignOperator),
}

impl Code {
    /// Whether this is the code `other`: what `==` answers, by the definition that contracts cite.
    pub fn same(self, other: Code) -> bool
        ensures { result ≡ same_code self other }
    {
        self == other
    }
}

/// A code with its place: the token begins at the offset `lo` of the source text and ends before `hi`. Two fields and no struct
/// of them: the definitions and laws of readings name `lo` and `hi`, and each would be a step longer.
#[derive(Clone, Copy, PartialEq, Eq, Debug)]
pub struct Token {
    pub code: Code,
    pub lo: u32,
    pub hi: u32,
}

/// The test that `Code::same` makes is true of equal codes and of no others.
pub fn same_decides()
    ensures { DecidesEquality }
{}
