// The operators that are signs: those that compute, and those that assign.

ghost use Rattle.std.specs.Prelude.{◌≡◌, eqb};
ghost use Rattle.token.specs.Same.{operator_rank, assign_rank};

/// A sign that computes from one operand or two. `+` and `-` do either: the token is the same.
#[derive(Clone, Copy, PartialEq, Eq, Debug)]
pub enum Operator {
    /// `!`
    Not,
    /// `~`
    BitNot,
    /// `++`
    Increment,
    /// `--`
    Decrement,
    /// `+`
    Plus,
    /// `-`
    Minus,
    /// `*`
    Multiply,
    /// `/`
    Divide,
    /// `%`
    Remainder,
    /// `**`
    Exponent,
    /// `<<`
    LeftShift,
    /// `>>`
    RightShift,
    /// `>>>`
    UnsignedRightShift,
    /// `<`
    Less,
    /// `<=`
    LessOrEqual,
    /// `>`
    Greater,
    /// `>=`
    GreaterOrEqual,
    /// `==`
    Equal,
    /// `!=`
    NotEqual,
    /// `===`
    StrictEqual,
    /// `!==`
    StrictNotEqual,
    /// `&`
    BitAnd,
    /// `^`
    BitXor,
    /// `|`
    BitOr,
    /// `&&`
    And,
    /// `||`
    Or,
    /// `??`
    Coalesce,
}

impl Operator {
    /// Whether this is the operator `other`: what `==` answers, by the definition that contracts cite.
    pub fn same(self, other: Operator) -> bool
        ensures { result ≡ eqb (operator_rank self) (operator_rank other) }
    {
        self == other
    }
}

/// A sign that assigns: `=`, or a binary operator with `=` behind it. Comparisons have no such form, so this is an
/// enum of its own and not an `Operator` with a flag: `====` cannot be written.
#[derive(Clone, Copy, PartialEq, Eq, Debug)]
pub enum AssignOperator {
    /// `=`
    Assign,
    /// `**=`
    ExponentAssign,
    /// `*=`
    MultiplyAssign,
    /// `/=`
    DivideAssign,
    /// `%=`
    RemainderAssign,
    /// `+=`
    PlusAssign,
    /// `-=`
    MinusAssign,
    /// `<<=`
    LeftShiftAssign,
    /// `>>=`
    RightShiftAssign,
    /// `>>>=`
    UnsignedRightShiftAssign,
    /// `&=`
    BitAndAssign,
    /// `^=`
    BitXorAssign,
    /// `|=`
    BitOrAssign,
    /// `&&=`
    AndAssign,
    /// `||=`
    OrAssign,
    /// `??=`
    CoalesceAssign,
}

impl AssignOperator {
    /// Whether this is the operator `other`: what `==` answers, by the definition that contracts cite.
    pub fn same(self, other: AssignOperator) -> bool
        ensures { result ≡ eqb (assign_rank self) (assign_rank other) }
    {
        self == other
    }
}
