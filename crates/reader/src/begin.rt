// What is to be read where a child begins, from the goal and the token there.

ghost use Rattle.std.specs.Prelude.{◌≡◌};
ghost use Rattle.grammar.specs.Parser.{prefix, expr_do, stm_do, word_do, punctuator_do, operator_do, opening, stm_word, stm_punctuator, stm_opening, name_do, unary_do, update_do, eat, fin};
ghost use Rattle.grammar.specs.Layout.{code_begin};
ghost use Rattle.kinds.specs.Codes.{constant_code, unary_code};
ghost use Rattle.grammar.specs.Site.{is_other};
ghost use Rattle.reader.specs.Table.{do_of, do_or_fail, goal_of};
ghost use Rattle.token.specs.declared.Code.TheVariants as code;
ghost use Rattle.kinds.specs.declared.form.Form.TheVariants as form;

use crate::glance::{arrow_behind, opens, peek, sees};
use crate::goal::{Goal, Mode};
use crate::rest::{Declared, List, Rest, Tested};
use kinds::{Binding, Constant, Form, Side, Slot, UnaryOperator, UpdateOperator};
use token::{AssignOperator, Code, Operator, Punctuator, Token, Word};

/// A word that is a value.
fn constant(value: Constant) -> Rest
    ensures { do_of result ≡ eat (constant_code value) (fin (form.Word value)) }
{
    Rest::Token(Code::from(value), Form::Word(value))
}

/// A token and the operand behind it.
fn operated(code: Code, form: Form) -> Rest
    ensures { do_of result ≡ unary_do code form }
{
    Rest::TokenLast(code, Mode::Same, Goal::Expression(Slot::Unary), form)
}

/// An operator and its operand.
fn unary(operator: UnaryOperator) -> Rest
    ensures { do_of result ≡ unary_do (unary_code operator) (form.Unary operator) }
{
    operated(Code::from(operator), Form::Unary(operator))
}

/// An operator that counts, and its target.
fn update(operator: UpdateOperator) -> Rest
    ensures { do_of result ≡ update_do operator }
{
    Rest::TokenLast(
        Code::from(operator),
        Mode::Same,
        Goal::Expression(Slot::Call),
        Form::Update(operator, Side::Before),
    )
}

/// An expression that begins with a word.
fn word_begins(word: Word) -> Option<Rest>
    ensures { do_or_fail result ≡ word_do word }
{
    match word {
        Word::Null => Some(constant(Constant::Null)),
        Word::True => Some(constant(Constant::True)),
        Word::False => Some(constant(Constant::False)),
        Word::This => Some(Rest::Token(Code::Word(Word::This), Form::This)),
        Word::Function => Some(Rest::Function),
        Word::Typeof => Some(unary(UnaryOperator::Typeof)),
        Word::Void => Some(unary(UnaryOperator::Void)),
        Word::Delete => Some(unary(UnaryOperator::Delete)),
        Word::New => Some(Rest::New),
        Word::Await => Some(operated(Code::Word(Word::Await), Form::Await)),
        Word::Yield => Some(Rest::Yield),
        _ => None,
    }
}

/// An expression that begins with a punctuator, with the tokens behind it ahead.
fn punctuator_begins(ahead: &[Token], punctuator: Punctuator) -> Option<Rest>
    ensures { do_or_fail result ≡ punctuator_do punctuator ahead.now }
{
    match punctuator {
        Punctuator::OpenParen if arrow_behind(ahead) => Some(Rest::Open(List::ArrowParameters)),
        Punctuator::OpenParen => Some(Rest::Enclosed(
            Code::Punctuator(Punctuator::OpenParen),
            Goal::Expression(Slot::Expression),
            Code::Punctuator(Punctuator::CloseParen),
            Form::Paren,
        )),
        Punctuator::OpenBracket => Some(Rest::Open(List::Elements)),
        Punctuator::OpenBrace => Some(Rest::Open(List::Properties)),
        _ => None,
    }
}

/// An expression that begins with an operator.
fn operator_begins(operator: Operator) -> Option<Rest>
    ensures { do_or_fail result ≡ operator_do operator }
{
    match operator {
        Operator::Not => Some(unary(UnaryOperator::Not)),
        Operator::BitNot => Some(unary(UnaryOperator::BitNot)),
        Operator::Plus => Some(unary(UnaryOperator::Plus)),
        Operator::Minus => Some(unary(UnaryOperator::Minus)),
        Operator::Increment => Some(update(UpdateOperator::Increment)),
        Operator::Decrement => Some(update(UpdateOperator::Decrement)),
        _ => None,
    }
}

/// An expression that begins with a token of this code, with the tokens behind it ahead.
fn code_begins(ahead: &[Token], code: Code) -> Option<Rest>
    ensures { do_or_fail result ≡ opening code ahead.now }
{
    match code {
        Code::Name => Some(Rest::Token(Code::Name, Form::Name(Binding::Plain))),
        Code::Number => Some(Rest::Token(Code::Number, Form::Num)),
        Code::String => Some(Rest::Token(Code::String, Form::Str)),
        Code::Word(word) => word_begins(word),
        Code::Punctuator(punctuator) => punctuator_begins(ahead, punctuator),
        Code::Operator(operator) => operator_begins(operator),
        Code::AssignOperator(_) => None,
    }
}

/// The expression that is ahead.
fn expression(ahead: &[Token]) -> Option<Rest>
    ensures { do_or_fail result ≡ expr_do ahead.now }
{
    let (token, behind) = ahead.split_first()?;
    code_begins(behind, token.code)
}

/// Whether a statement cannot begin with a token of this code as an expression does: `{` and `function`.
fn begins_otherwise(code: Code) -> bool
    ensures { result ≡ is_other (code_begin code) }
{
    !matches!(
        code,
        Code::Punctuator(Punctuator::OpenBrace) | Code::Word(Word::Function)
    )
}

/// A statement that begins with a word.
fn statement_word(word: Word) -> Option<Rest>
    ensures { do_or_fail result ≡ stm_word word }
{
    match word {
        Word::Var => Some(Rest::Var(Declared::Statement)),
        Word::Return => Some(Rest::Return),
        Word::If => Some(Rest::Test(Tested::If)),
        Word::While => Some(Rest::Test(Tested::While)),
        Word::For => Some(Rest::For),
        _ => None,
    }
}

/// A statement that begins with a punctuator.
fn statement_punctuator(punctuator: Punctuator) -> Option<Rest>
    ensures { do_or_fail result ≡ stm_punctuator punctuator }
{
    match punctuator {
        Punctuator::OpenBrace => Some(Rest::Block),
        Punctuator::Semicolon => Some(Rest::Token(
            Code::Punctuator(Punctuator::Semicolon),
            Form::Empty,
        )),
        _ => None,
    }
}

/// A statement that begins with a token of this code, but not with an expression.
fn statement_code(code: Code) -> Option<Rest>
    ensures { do_or_fail result ≡ stm_opening code }
{
    match code {
        Code::Word(word) => statement_word(word),
        Code::Punctuator(punctuator) => statement_punctuator(punctuator),
        _ => None,
    }
}

/// The statement that is ahead.
fn statement(ahead: &[Token]) -> Option<Rest>
    ensures { do_or_fail result ≡ stm_do ahead.now }
{
    let code = peek(ahead)?;
    if opens(code) && begins_otherwise(code) {
        return Some(Rest::Plain);
    }
    statement_code(code)
}

/// Whether the Name that is ahead has a value next to it.
fn binding(ahead: &[Token]) -> Binding
    ensures { eat code.Name (fin (form.Name result)) ≡ name_do ahead.now }
{
    match ahead.split_first() {
        Some((_, behind)) if sees(behind, Code::AssignOperator(AssignOperator::Assign)) => {
            Binding::Valued
        }
        _ => Binding::Plain,
    }
}

/// What is to be read for the goal, by the tokens ahead, if it can begin so.
pub fn begin(ahead: &[Token], goal: Goal) -> Option<Rest>
    ensures { do_or_fail result ≡ prefix (goal_of goal) ahead.now }
{
    match goal {
        Goal::Expression(_) => expression(ahead),
        Goal::Statement => statement(ahead),
        Goal::Block => Some(Rest::Block),
        Goal::Declaration => Some(Rest::Var(Declared::Head)),
        Goal::Property => Some(Rest::Property),
        Goal::Name => Some(Rest::Token(Code::Name, Form::Name(binding(ahead)))),
    }
}
