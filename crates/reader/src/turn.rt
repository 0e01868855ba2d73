// What a token does behind an expression.

ghost use Rattle.std.specs.Prelude.{◌≡◌};
ghost use Rattle.grammar.specs.Parser.{after, next, word_after, punctuator_after, operator_after, frame, binary_frame, first_slot, is_frame};
ghost use Rattle.reader.specs.Table.{linked, turn_of, do_or_fail, Turns, Grows};

use crate::glance::peek;
use crate::goal::{Goal, Mode};
use crate::rest::{List, Rest};
use kinds::{BinaryOperator, Entry, Form, Key, Link, Side, Slot, UpdateOperator, level};
use token::{AssignOperator, Code, Operator, Punctuator, Token, Word};

/// What a token does behind an expression.
// Ends and Cannot are no one None: the grammar tells an end from a sign that cannot stand there, and `turn_of` says which.
#[derive(Clone, Copy, PartialEq, Eq, Debug)]
pub enum Turn {
    /// Stands between two operands.
    Operates(BinaryOperator),
    /// Assigns to the expression.
    Assigns(AssignOperator),
    /// Counts the expression up or down.
    Counts(UpdateOperator),
    /// Separates the elements of a sequence.
    Separates,
    /// Asks a condition.
    Asks,
    /// Names a member.
    Names,
    /// Opens a computed key.
    Keys,
    /// Opens a list of arguments.
    Calls,
    /// Begins a link of an optional chain.
    Links,
    /// Ends the expression.
    Ends,
    /// Stands behind no expression.
    Cannot,
}

fn word_turn(word: Word) -> Turn
    ensures { turn_of result ≡ word_after word }
{
    match word {
        Word::In => Turn::Operates(BinaryOperator::In),
        Word::Instanceof => Turn::Operates(BinaryOperator::Instanceof),
        _ => Turn::Cannot,
    }
}

fn punctuator_turn(punctuator: Punctuator) -> Turn
    ensures { turn_of result ≡ punctuator_after punctuator }
{
    match punctuator {
        Punctuator::OpenParen => Turn::Calls,
        Punctuator::OpenBracket => Turn::Keys,
        Punctuator::Comma => Turn::Separates,
        Punctuator::Dot => Turn::Names,
        Punctuator::Question => Turn::Asks,
        Punctuator::QuestionDot => Turn::Links,
        Punctuator::OpenBrace | Punctuator::Arrow => Turn::Cannot,
        _ => Turn::Ends,
    }
}

// No `BinaryOperator::of(operator)` beside the `From` in kinds: it would hold these same arms, and an Option on top.
fn operator_turn(operator: Operator) -> Turn
    ensures { turn_of result ≡ operator_after operator }
{
    match operator {
        Operator::Not | Operator::BitNot => Turn::Cannot,
        Operator::Increment => Turn::Counts(UpdateOperator::Increment),
        Operator::Decrement => Turn::Counts(UpdateOperator::Decrement),
        Operator::Plus => Turn::Operates(BinaryOperator::Add),
        Operator::Minus => Turn::Operates(BinaryOperator::Subtract),
        Operator::Multiply => Turn::Operates(BinaryOperator::Multiply),
        Operator::Divide => Turn::Operates(BinaryOperator::Divide),
        Operator::Remainder => Turn::Operates(BinaryOperator::Remainder),
        Operator::Exponent => Turn::Operates(BinaryOperator::Exponent),
        Operator::LeftShift => Turn::Operates(BinaryOperator::LeftShift),
        Operator::RightShift => Turn::Operates(BinaryOperator::RightShift),
        Operator::UnsignedRightShift => Turn::Operates(BinaryOperator::UnsignedRightShift),
        Operator::Less => Turn::Operates(BinaryOperator::Less),
        Operator::LessOrEqual => Turn::Operates(BinaryOperator::LessOrEqual),
        Operator::Greater => Turn::Operates(BinaryOperator::Greater),
        Operator::GreaterOrEqual => Turn::Operates(BinaryOperator::GreaterOrEqual),
        Operator::Equal => Turn::Operates(BinaryOperator::Equal),
        Operator::NotEqual => Turn::Operates(BinaryOperator::NotEqual),
        Operator::StrictEqual => Turn::Operates(BinaryOperator::StrictEqual),
        Operator::StrictNotEqual => Turn::Operates(BinaryOperator::StrictNotEqual),
        Operator::BitAnd => Turn::Operates(BinaryOperator::BitAnd),
        Operator::BitXor => Turn::Operates(BinaryOperator::BitXor),
        Operator::BitOr => Turn::Operates(BinaryOperator::BitOr),
        Operator::And => Turn::Operates(BinaryOperator::And),
        Operator::Or => Turn::Operates(BinaryOperator::Or),
        Operator::Coalesce => Turn::Operates(BinaryOperator::Coalesce),
    }
}

/// What a token of this code does behind an expression.
pub fn turn_of(code: Code) -> Turn
    ensures { turn_of result ≡ after code }
{
    match code {
        Code::Name | Code::Number | Code::String => Turn::Cannot,
        Code::Word(word) => word_turn(word),
        Code::Punctuator(punctuator) => punctuator_turn(punctuator),
        Code::Operator(operator) => operator_turn(operator),
        Code::AssignOperator(operator) => Turn::Assigns(operator),
    }
}

/// What the next token does behind an expression; the end of the tokens ends it.
pub fn turn_at(ahead: &[Token]) -> Turn
    ensures { turn_of result ≡ next ahead.now }
{
    peek(ahead).map_or(Turn::Ends, turn_of)
}

/// The slot that the expression before the token then stands in.
#[tactic(auto, using(crate::proofs::Operands::left_first))]
pub fn first_slot(turn: Turn) -> Slot
    ensures { result ≡ first_slot (frame (turn_of turn)) }
{
    match turn {
        Turn::Operates(operator) => level::left_slot(operator),
        Turn::Assigns(_) | Turn::Counts(_) => Slot::Target,
        Turn::Separates => Slot::Assignment,
        Turn::Asks => Slot::ShortCircuit,
        Turn::Names | Turn::Keys | Turn::Calls | Turn::Links => Slot::Optional,
        Turn::Ends | Turn::Cannot => Slot::Expression,
    }
}

/// Whether the token can stand behind an expression, where `in` may stand in the open or may not.
pub fn stands(turn: Turn, allow_in: bool) -> bool
    ensures { result ≡ is_frame allow_in (frame (turn_of turn)) }
{
    match turn {
        Turn::Operates(BinaryOperator::In) => allow_in,
        Turn::Ends | Turn::Cannot => false,
        _ => true,
    }
}

/// The form of a member or a call; `chained`: as a tail of an optional chain.
fn linked(link: Link, chained: bool) -> Form
    ensures { result ≡ linked link chained }
{
    if chained {
        return Form::Chain(link, Entry::Tail);
    }
    match link {
        Link::Name => Form::Member(Key::Fixed),
        Link::Key => Form::Member(Key::Computed),
        Link::Call => Form::Call,
    }
}

/// What is left to read of the record that the token makes of the expression before it, if it makes one; `chained`: this
/// is a link of an optional chain.
// The forms are not taken from `grown`: that promises a form of the same standing only, not which one it is.
pub fn behind(turn: Turn, chained: bool) -> Option<Rest>
    ensures { Turns (turn_of turn) chained (do_or_fail result) }
{
    let rest = match turn {
        Turn::Operates(operator) => Rest::TokenLast(
            Code::from(operator),
            Mode::Same,
            Goal::Expression(level::right_slot(operator)),
            Form::Bin(operator),
        ),
        Turn::Assigns(operator) => Rest::TokenLast(
            Code::AssignOperator(operator),
            Mode::Same,
            Goal::Expression(Slot::Assignment),
            Form::Assign(operator),
        ),
        Turn::Counts(operator) => Rest::Token(
            Code::from(operator),
            Form::Update(operator, Side::After),
        ),
        Turn::Separates => Rest::Comma,
        Turn::Asks => Rest::Question,
        Turn::Names => Rest::TokenLast(
            Code::Punctuator(Punctuator::Dot),
            Mode::Free,
            Goal::Expression(Slot::Identifier),
            linked(Link::Name, chained),
        ),
        Turn::Keys => Rest::Enclosed(
            Code::Punctuator(Punctuator::OpenBracket),
            Goal::Expression(Slot::Expression),
            Code::Punctuator(Punctuator::CloseBracket),
            linked(Link::Key, chained),
        ),
        Turn::Calls => Rest::Open(List::Arguments(linked(Link::Call, chained))),
        Turn::Links => Rest::OptionalSign,
        Turn::Ends | Turn::Cannot => return None,
    };
    Some(rest)
}

/// A form of the standing of the record that the token makes; `chained` as above.
pub fn grown(turn: Turn, chained: bool) -> Form
    ensures { Grows (turn_of turn) chained result }
{
    match turn {
        Turn::Operates(operator) => Form::Bin(operator),
        Turn::Assigns(operator) => Form::Assign(operator),
        Turn::Counts(operator) => Form::Update(operator, Side::After),
        Turn::Separates => Form::Seq,
        Turn::Asks => Form::Cond,
        Turn::Names => linked(Link::Name, chained),
        Turn::Keys => linked(Link::Key, chained),
        Turn::Calls => linked(Link::Call, chained),
        Turn::Links => Form::Chain(Link::Name, Entry::Optional),
        Turn::Ends | Turn::Cannot => Form::Empty,
    }
}
