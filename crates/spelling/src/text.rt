// From a code to its spelling.

ghost use Rattle.std.specs.Prelude.{◌≡◌, Some, None};
ghost use Rattle.spelling.specs.Spelling.{assign_spelling, operator_spelling, punctuator_spelling, spelling, word_spelling};

use token::{AssignOperator, Code, Operator, Punctuator, Word};

/// The spelling of `code`, or `None` for a name, a number and a string: the source text has theirs.
pub fn spelling_of(code: Code) -> Option<&'static str>
    ensures { elim result [ Some text ↦ spelling code ≡ Some text.now | None ↦ spelling code ≡ None ] }
{
    match code {
        Code::Name | Code::Number | Code::String => None,
        Code::Word(word) => Some(word_spelling(word)),
        Code::Punctuator(punctuator) => Some(punctuator_spelling(punctuator)),
        Code::Operator(operator) => Some(operator_spelling(operator)),
        Code::AssignOperator(operator) => Some(assign_spelling(operator)),
    }
}

fn word_spelling(word: Word) -> &'static str
    ensures { result.now ≡ word_spelling word }
{
    match word {
        Word::Null => "null",
        Word::True => "true",
        Word::False => "false",
        Word::This => "this",
        Word::Function => "function",
        Word::Typeof => "typeof",
        Word::Void => "void",
        Word::Delete => "delete",
        Word::In => "in",
        Word::Instanceof => "instanceof",
        Word::New => "new",
        Word::Await => "await",
        Word::Yield => "yield",
        Word::Var => "var",
        Word::Return => "return",
        Word::If => "if",
        Word::Else => "else",
        Word::While => "while",
        Word::For => "for",
    }
}

fn punctuator_spelling(punctuator: Punctuator) -> &'static str
    ensures { result.now ≡ punctuator_spelling punctuator }
{
    match punctuator {
        Punctuator::OpenParen => "(",
        Punctuator::CloseParen => ")",
        Punctuator::OpenBracket => "[",
        Punctuator::CloseBracket => "]",
        Punctuator::OpenBrace => "{",
        Punctuator::CloseBrace => "}",
        Punctuator::Semicolon => ";",
        Punctuator::Comma => ",",
        Punctuator::Dot => ".",
        Punctuator::Colon => ":",
        Punctuator::Question => "?",
        Punctuator::QuestionDot => "?.",
        Punctuator::Arrow => "=>",
    }
}

fn operator_spelling(operator: Operator) -> &'static str
    ensures { result.now ≡ operator_spelling operator }
{
    match operator {
        Operator::Not => "!",
        Operator::BitNot => "~",
        Operator::Increment => "++",
        Operator::Decrement => "--",
        Operator::Plus => "+",
        Operator::Minus => "-",
        Operator::Multiply => "*",
        Operator::Divide => "/",
        Operator::Remainder => "%",
        Operator::Exponent => "**",
        Operator::LeftShift => "<<",
        Operator::RightShift => ">>",
        Operator::UnsignedRightShift => ">>>",
        Operator::Less => "<",
        Operator::LessOrEqual => "<=",
        Operator::Greater => ">",
        Operator::GreaterOrEqual => ">=",
        Operator::Equal => "==",
        Operator::NotEqual => "!=",
        Operator::StrictEqual => "===",
        Operator::StrictNotEqual => "!==",
        Operator::BitAnd => "&",
        Operator::BitXor => "^",
        Operator::BitOr => "|",
        Operator::And => "&&",
        Operator::Or => "||",
        Operator::Coalesce => "??",
    }
}

fn assign_spelling(operator: AssignOperator) -> &'static str
    ensures { result.now ≡ assign_spelling operator }
{
    match operator {
        AssignOperator::Assign => "=",
        AssignOperator::ExponentAssign => "**=",
        AssignOperator::MultiplyAssign => "*=",
        AssignOperator::DivideAssign => "/=",
        AssignOperator::RemainderAssign => "%=",
        AssignOperator::PlusAssign => "+=",
        AssignOperator::MinusAssign => "-=",
        AssignOperator::LeftShiftAssign => "<<=",
        AssignOperator::RightShiftAssign => ">>=",
        AssignOperator::UnsignedRightShiftAssign => ">>>=",
        AssignOperator::BitAndAssign => "&=",
        AssignOperator::BitXorAssign => "^=",
        AssignOperator::BitOrAssign => "|=",
        AssignOperator::AndAssign => "&&=",
        AssignOperator::OrAssign => "||=",
        AssignOperator::CoalesceAssign => "??=",
    }
}
