// The fixed spellings: from a spelling to its code, and back.
// `Code` is another crate's, so these are functions here and no impls of FromStr and Display. They are no part of that
// crate for the time that the match takes to prove: docs/DECISIONS.md, "The spelling match has a crate of its own".

#![tactic(auto)]

mod text;

ghost use Rattle.std.specs.Prelude.{◌≡◌, ℕ, List, Some, None};
ghost use Rattle.spelling.specs.Spelling.{CodeOf, ExactlyIf, SpelledApart, spelling};

pub use text::spelling_of;
use token::{AssignOperator, Code, Operator, Punctuator, Word};

// Written out beside the table of text.rt: a search of that one would need a list of all the codes, as long as this
// table.
/// The code that is spelled `spelling`, or `None` if no code is: then it is a name, a number, a string or no token.
pub fn code_of(spelling: &str) -> Option<Code>
    ensures { CodeOf spelling.now result }
{
    match spelling {
        "null" => Some(Code::Word(Word::Null)),
        "true" => Some(Code::Word(Word::True)),
        "false" => Some(Code::Word(Word::False)),
        "this" => Some(Code::Word(Word::This)),
        "function" => Some(Code::Word(Word::Function)),
        "typeof" => Some(Code::Word(Word::Typeof)),
        "void" => Some(Code::Word(Word::Void)),
        "delete" => Some(Code::Word(Word::Delete)),
        "in" => Some(Code::Word(Word::In)),
        "instanceof" => Some(Code::Word(Word::Instanceof)),
        "new" => Some(Code::Word(Word::New)),
        "await" => Some(Code::Word(Word::Await)),
        "yield" => Some(Code::Word(Word::Yield)),
        "var" => Some(Code::Word(Word::Var)),
        "return" => Some(Code::Word(Word::Return)),
        "if" => Some(Code::Word(Word::If)),
        "else" => Some(Code::Word(Word::Else)),
        "while" => Some(Code::Word(Word::While)),
        "for" => Some(Code::Word(Word::For)),
        "(" => Some(Code::Punctuator(Punctuator::OpenParen)),
        ")" => Some(Code::Punctuator(Punctuator::CloseParen)),
        "[" => Some(Code::Punctuator(Punctuator::OpenBracket)),
        "]" => Some(Code::Punctuator(Punctuator::CloseBracket)),
        "{" => Some(Code::Punctuator(Punctuator::OpenBrace)),
        "}" => Some(Code::Punctuator(Punctuator::CloseBrace)),
        ";" => Some(Code::Punctuator(Punctuator::Semicolon)),
        "," => Some(Code::Punctuator(Punctuator::Comma)),
        "." => Some(Code::Punctuator(Punctuator::Dot)),
        ":" => Some(Code::Punctuator(Punctuator::Colon)),
        "?" => Some(Code::Punctuator(Punctuator::Question)),
        "?." => Some(Code::Punctuator(Punctuator::QuestionDot)),
        "=>" => Some(Code::Punctuator(Punctuator::Arrow)),
        "!" => Some(Code::Operator(Operator::Not)),
        "~" => Some(Code::Operator(Operator::BitNot)),
        "++" => Some(Code::Operator(Operator::Increment)),
        "--" => Some(Code::Operator(Operator::Decrement)),
        "+" => Some(Code::Operator(Operator::Plus)),
        "-" => Some(Code::Operator(Operator::Minus)),
        "*" => Some(Code::Operator(Operator::Multiply)),
        "/" => Some(Code::Operator(Operator::Divide)),
        "%" => Some(Code::Operator(Operator::Remainder)),
        "**" => Some(Code::Operator(Operator::Exponent)),
        "<<" => Some(Code::Operator(Operator::LeftShift)),
        ">>" => Some(Code::Operator(Operator::RightShift)),
        ">>>" => Some(Code::Operator(Operator::UnsignedRightShift)),
        "<" => Some(Code::Operator(Operator::Less)),
        "<=" => Some(Code::Operator(Operator::LessOrEqual)),
        ">" => Some(Code::Operator(Operator::Greater)),
        ">=" => Some(Code::Operator(Operator::GreaterOrEqual)),
        "==" => Some(Code::Operator(Operator::Equal)),
        "!=" => Some(Code::Operator(Operator::NotEqual)),
        "===" => Some(Code::Operator(Operator::StrictEqual)),
        "!==" => Some(Code::Operator(Operator::StrictNotEqual)),
        "&" => Some(Code::Operator(Operator::BitAnd)),
        "^" => Some(Code::Operator(Operator::BitXor)),
        "|" => Some(Code::Operator(Operator::BitOr)),
        "&&" => Some(Code::Operator(Operator::And)),
        "||" => Some(Code::Operator(Operator::Or)),
        "??" => Some(Code::Operator(Operator::Coalesce)),
        "=" => Some(Code::AssignOperator(AssignOperator::Assign)),
        "**=" => Some(Code::AssignOperator(AssignOperator::ExponentAssign)),
        "*=" => Some(Code::AssignOperator(AssignOperator::MultiplyAssign)),
        "/=" => Some(Code::AssignOperator(AssignOperator::DivideAssign)),
        "%=" => Some(Code::AssignOperator(AssignOperator::RemainderAssign)),
        "+=" => Some(Code::AssignOperator(AssignOperator::PlusAssign)),
        "-=" => Some(Code::AssignOperator(AssignOperator::MinusAssign)),
        "<<=" => Some(Code::AssignOperator(AssignOperator::LeftShiftAssign)),
        ">>=" => Some(Code::AssignOperator(AssignOperator::RightShiftAssign)),
        ">>>=" => Some(Code::AssignOperator(AssignOperator::UnsignedRightShiftAssign)),
        "&=" => Some(Code::AssignOperator(AssignOperator::BitAndAssign)),
        "^=" => Some(Code::AssignOperator(AssignOperator::BitXorAssign)),
        "|=" => Some(Code::AssignOperator(AssignOperator::BitOrAssign)),
        "&&=" => Some(Code::AssignOperator(AssignOperator::AndAssign)),
        "||=" => Some(Code::AssignOperator(AssignOperator::OrAssign)),
        "??=" => Some(Code::AssignOperator(AssignOperator::CoalesceAssign)),
        _ => None,
    }
}

/// The code that is found from the spelling of `code`: `code` itself, or `None` where it has no spelling.
pub fn found_again(code: Code) -> Option<Code>
    ensures spelled { (s : List ℕ) → spelling code ≡ Some s → result ≡ Some code }
    ensures unspelled { spelling code ≡ None → result ≡ None }
{
    code_of(spelling_of(code)?)
}

/// What the contract of `code_of` comes to: no two codes are spelled alike, so a text has a code exactly if that code
/// is spelled so, and none exactly if no code is.
pub fn spellings_agree()
    ensures apart { SpelledApart }
    ensures exact { ExactlyIf }
{}
