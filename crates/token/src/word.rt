// The reserved words: letters that are never a name, behind a dot either.

ghost use Rattle.std.specs.Prelude.{◌≡◌, eqb};
ghost use Rattle.token.specs.Same.{word_rank};

/// A reserved word. `in` and `instanceof` stand between operands as operators do, and `typeof`, `void`, `delete`
/// before one, but they are words all the same: only the spelling decides here.
#[derive(Clone, Copy, PartialEq, Eq, Debug)]
pub enum Word {
    /// `null`
    Null,
    /// `true`
    True,
    /// `false`
    False,
    /// `this`
    This,
    /// `function`
    Function,
    /// `typeof`
    Typeof,
    /// `void`
    Void,
    /// `delete`
    Delete,
    /// `in`
    In,
    /// `instanceof`
    Instanceof,
    /// `new`
    New,
    /// `await`
    Await,
    /// `yield`
    Yield,
    /// `var`
    Var,
    /// `return`
    Return,
    /// `if`
    If,
    /// `else`
    Else,
    /// `while`
    While,
    /// `for`
    For,
}

impl Word {
    /// Whether this is the word `other`: what `==` answers, by the definition that contracts cite.
    pub fn same(self, other: Word) -> bool
        ensures { result ≡ eqb (word_rank self) (word_rank other) }
    {
        self == other
    }
}
