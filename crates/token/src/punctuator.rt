// The punctuators: the signs that enclose and separate.

ghost use Rattle.std.specs.Prelude.{◌≡◌, eqb};
ghost use Rattle.token.specs.Same.{punctuator_rank};

/// A sign that is no operator: brackets, separators, and the signs of a conditional, of an optional chain and of an
/// arrow function.
#[derive(Clone, Copy, PartialEq, Eq, Debug)]
pub enum Punctuator {
    /// `(`
    OpenParen,
    /// `)`
    CloseParen,
    /// `[`
    OpenBracket,
    /// `]`
    CloseBracket,
    /// `{`
    OpenBrace,
    /// `}`
    CloseBrace,
    /// `;`
    Semicolon,
    /// `,`
    Comma,
    /// `.`
    Dot,
    /// `:`
    Colon,
    /// `?`
    Question,
    /// `?.`
    QuestionDot,
    /// `=>`
    Arrow,
}

impl Punctuator {
    /// Whether this is the punctuator `other`: what `==` answers, by the definition that contracts cite.
    pub fn same(self, other: Punctuator) -> bool
        ensures { result ≡ eqb (punctuator_rank self) (punctuator_rank other) }
    {
        self == other
    }
}
