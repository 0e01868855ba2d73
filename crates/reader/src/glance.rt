// Looks at the tokens ahead, those that are not read yet, without eating one.

ghost use Rattle.std.specs.Prelude.{◌≡◌, ◌≤◌, length};
ghost use Rattle.grammar.specs.Parser.{starts, at_stop, first_opens, opens, skip};
ghost use Rattle.grammar.specs.Codes.{arrow};
ghost use Rattle.reader.specs.Table.{Peeked};

use token::{Code, Operator, Punctuator, Token, Word};

/// The code of the next token, if there is one.
pub fn peek(ahead: &[Token]) -> Option<Code>
    ensures { Peeked ahead.now result }
{
    ahead.first().map(|token| token.code)
}

/// Whether the next token is `code`.
#[tactic(auto, using(token::proofs::Derived::same_derived))]
pub fn sees(ahead: &[Token], code: Code) -> bool
    ensures { result ≡ starts code ahead.now }
{
    peek(ahead).is_some_and(|found| found == code)
}

/// Whether the statements end here: the tokens do, or there is a `}`.
#[tactic(auto, using(token::proofs::Derived::same_derived))]
pub fn at_stop(ahead: &[Token]) -> bool
    ensures { result ≡ at_stop ahead.now }
{
    peek(ahead).is_none_or(|code| code == Code::Punctuator(Punctuator::CloseBrace))
}

/// Whether a token of this code can begin an expression.
// Not `code_begins(&[], code).is_some()`: that makes up tokens behind this one, to find a Rest that is thrown away.
pub fn opens(code: Code) -> bool
    ensures { result ≡ opens code }
{
    match code {
        Code::Name | Code::Number | Code::String => true,
        Code::Word(word) => matches!(
            word,
            Word::Null
                | Word::True
                | Word::False
                | Word::This
                | Word::Function
                | Word::Typeof
                | Word::Void
                | Word::Delete
                | Word::New
                | Word::Await
                | Word::Yield
        ),
        Code::Punctuator(punctuator) => matches!(
            punctuator,
            Punctuator::OpenParen | Punctuator::OpenBracket | Punctuator::OpenBrace
        ),
        Code::Operator(operator) => matches!(
            operator,
            Operator::Not
                | Operator::BitNot
                | Operator::Increment
                | Operator::Decrement
                | Operator::Plus
                | Operator::Minus
        ),
        Code::AssignOperator(_) => false,
    }
}

/// Whether an expression can begin here.
pub fn opens_at(ahead: &[Token]) -> bool
    ensures { result ≡ first_opens ahead.now }
{
    peek(ahead).is_some_and(opens)
}

/// Whether `=>` follows the `)` that closes the parenthesis whose inside is ahead.
// Tried: a `for` with a match on the code. It proved, but nested pairs were read about a quarter slower.
#[tactic(auto, using(token::proofs::Derived::same_derived))]
pub fn arrow_behind(ahead: &[Token]) -> bool
    ensures { result ≡ starts arrow (skip 0 ahead.now) }
{
    let mut open: usize = 0;
    let mut rest = ahead;
    while let Some((token, behind)) = rest.split_first() {
        rest = behind;
        if token.code == Code::Punctuator(Punctuator::OpenParen) {
            open += 1;
        } else if token.code == Code::Punctuator(Punctuator::CloseParen) {
            if open == 0 {
                return sees(behind, Code::Punctuator(Punctuator::Arrow));
            }
            open -= 1;
        }
    }
    false
}
