// The next step of a record: which token or child comes next, or that it is complete.

ghost use Rattle.std.specs.Prelude.{◌≡◌, cond};
ghost use Rattle.grammar.specs.Parser.{eat, settle, starts};
ghost use Rattle.reader.specs.declared.rest.Rest.TheVariants.{MoreNames, Link as LinkRest, ForInit};
ghost use Rattle.reader.specs.Table.{do_of, to_do, part_of, open_of, close_of, behind_of, parts_of, more_of, body_end, tested_end, var_end};

use crate::glance::{at_stop, opens_at, sees};
use crate::goal::{Goal, Mode};
use crate::rest::{Body, Declared, List, Rest, Tested};
use kinds::{Arguments, Entry, Form, Key, Link, Own, Slot};
use token::{AssignOperator, Code, Punctuator, Token, Word};

/// The next thing to do.
#[derive(Clone, Copy, PartialEq, Eq, Debug)]
pub enum Step {
    /// The record is complete.
    Finish(Form),
    /// Eat this token.
    Eat(Code, Rest),
    /// Read a child.
    Read(Mode, Goal, Rest),
}

/// Eats the next token if it is `code`, and goes on with `then`; else does the other step.
fn eat_or(ahead: &[Token], code: Code, then: Rest, other: Step) -> Step
    ensures { to_do result ≡ cond (starts code ahead.now) (eat code (do_of then)) (to_do other) }
{
    if sees(ahead, code) {
        Step::Eat(code, then)
    } else {
        other
    }
}

/// What the parts of a list are.
fn part(list: List) -> Goal
    ensures { result ≡ part_of list }
{
    match list {
        List::Elements | List::Arguments(_) => Goal::Expression(Slot::Assignment),
        List::Properties => Goal::Property,
        List::ArrowParameters | List::Parameters(_) => Goal::Expression(Slot::Identifier),
    }
}

/// The tokens before and behind a list.
fn brackets(list: List) -> (Code, Code)
    ensures before { result.0 ≡ open_of list }
    ensures behind { result.1 ≡ close_of list }
{
    let (open, close) = match list {
        List::Elements => (Punctuator::OpenBracket, Punctuator::CloseBracket),
        List::Properties => (Punctuator::OpenBrace, Punctuator::CloseBrace),
        _ => (Punctuator::OpenParen, Punctuator::CloseParen),
    };
    (Code::Punctuator(open), Code::Punctuator(close))
}

/// What is left behind a list.
fn behind_list(list: List) -> Rest
    ensures { do_of result ≡ behind_of list }
{
    match list {
        List::Elements => Rest::Done(Form::Array),
        List::Properties => Rest::Done(Form::Object),
        List::Arguments(form) => Rest::Done(form),
        List::ArrowParameters => Rest::ArrowSign,
        List::Parameters(own) => Rest::Last(Mode::Free, Goal::Block, Form::Fn(own)),
    }
}

/// A list behind its opening bracket.
fn items(ahead: &[Token], list: List) -> Step
    ensures { to_do result ≡ settle (parts_of list) ahead.now }
{
    let (_, close) = brackets(list);
    eat_or(
        ahead,
        close,
        behind_list(list),
        Step::Read(Mode::Free, part(list), Rest::More(list)),
    )
}

/// A list behind one of its parts.
fn more(ahead: &[Token], list: List) -> Step
    ensures { to_do result ≡ settle (more_of list) ahead.now }
{
    let (_, close) = brackets(list);
    eat_or(
        ahead,
        Code::Punctuator(Punctuator::Comma),
        Rest::Next(list),
        Step::Eat(close, behind_list(list)),
    )
}

/// The end of a run of statements.
fn body_end(body: Body) -> Step
    ensures { to_do result ≡ body_end body }
{
    match body {
        Body::Block => Step::Eat(
            Code::Punctuator(Punctuator::CloseBrace),
            Rest::Done(Form::Block),
        ),
        Body::Script => Step::Finish(Form::Script),
    }
}

/// The end of a Var.
fn var_end(declared: Declared) -> Step
    ensures { to_do result ≡ var_end declared }
{
    match declared {
        Declared::Statement => Step::Eat(
            Code::Punctuator(Punctuator::Semicolon),
            Rest::Done(Form::Var),
        ),
        Declared::Head => Step::Finish(Form::Var),
    }
}

/// Behind a Name of a Var, with its value if it has one.
fn more_names(ahead: &[Token], declared: Declared) -> Step
    ensures { to_do result ≡ settle (do_of (MoreNames declared)) ahead.now }
{
    eat_or(
        ahead,
        Code::Punctuator(Punctuator::Comma),
        Rest::Names(declared),
        var_end(declared),
    )
}

/// What is left behind the body.
fn behind_body(tested: Tested) -> Rest
    ensures { do_of result ≡ tested_end tested }
{
    match tested {
        Tested::If => Rest::Else,
        Tested::While => Rest::Done(Form::While),
    }
}

/// A link of an optional chain, behind its `?.`.
fn link(ahead: &[Token]) -> Step
    ensures { to_do result ≡ settle (do_of LinkRest) ahead.now }
{
    eat_or(
        ahead,
        Code::Punctuator(Punctuator::OpenParen),
        Rest::Items(List::Arguments(Form::Chain(Link::Call, Entry::Optional))),
        eat_or(
            ahead,
            Code::Punctuator(Punctuator::OpenBracket),
            Rest::Closed(
                Goal::Expression(Slot::Expression),
                Code::Punctuator(Punctuator::CloseBracket),
                Form::Chain(Link::Key, Entry::Optional),
            ),
            Step::Read(
                Mode::Free,
                Goal::Expression(Slot::Identifier),
                Rest::Done(Form::Chain(Link::Name, Entry::Optional)),
            ),
        ),
    )
}

/// A `for`, behind its `(`.
fn for_init(ahead: &[Token]) -> Step
    ensures { to_do result ≡ settle (do_of ForInit) ahead.now }
{
    let first = if sees(ahead, Code::Word(Word::Var)) {
        Goal::Declaration
    } else {
        Goal::Expression(Slot::Expression)
    };
    eat_or(
        ahead,
        Code::Punctuator(Punctuator::Semicolon),
        Rest::ForTest { init: false },
        Step::Read(Mode::Shut, first, Rest::ForHead),
    )
}

/// The next step of what is left to read, by the next token.
pub fn next_step(ahead: &[Token], rest: Rest) -> Step
    ensures { to_do result ≡ settle (do_of rest) ahead.now }
{
    match rest {
        Rest::Done(form) => Step::Finish(form),
        Rest::Token(code, form) => Step::Eat(code, Rest::Done(form)),
        Rest::Last(mode, goal, form) => Step::Read(mode, goal, Rest::Done(form)),
        Rest::TokenLast(code, mode, goal, form) => Step::Eat(code, Rest::Last(mode, goal, form)),
        Rest::Closed(goal, code, form) => Step::Read(Mode::Free, goal, Rest::Token(code, form)),
        Rest::Enclosed(before, goal, code, form) => Step::Eat(
            before,
            Rest::Closed(goal, code, form),
        ),
        Rest::Open(list) => {
            let (open, _) = brackets(list);
            Step::Eat(open, Rest::Items(list))
        }
        Rest::Items(list) => items(ahead, list),
        Rest::More(list) => more(ahead, list),
        Rest::Next(list) => Step::Read(Mode::Free, part(list), Rest::More(list)),
        Rest::ArrowSign => Step::Eat(Code::Punctuator(Punctuator::Arrow), Rest::ArrowBody),
        Rest::ArrowBody => {
            if sees(ahead, Code::Punctuator(Punctuator::OpenBrace)) {
                Step::Read(Mode::Free, Goal::Block, Rest::Done(Form::Arrow))
            } else {
                Step::Read(
                    Mode::Same,
                    Goal::Expression(Slot::Assignment),
                    Rest::Done(Form::Arrow),
                )
            }
        }
        Rest::Function => Step::Eat(Code::Word(Word::Function), Rest::FunctionHead),
        Rest::FunctionHead => eat_or(
            ahead,
            Code::Punctuator(Punctuator::OpenParen),
            Rest::Items(List::Parameters(Own::Nameless)),
            Step::Read(
                Mode::Free,
                Goal::Expression(Slot::Identifier),
                Rest::Open(List::Parameters(Own::Named)),
            ),
        ),
        Rest::New => Step::Eat(Code::Word(Word::New), Rest::NewCallee),
        Rest::NewCallee => Step::Read(Mode::Same, Goal::Expression(Slot::New), Rest::NewArguments),
        Rest::NewArguments => eat_or(
            ahead,
            Code::Punctuator(Punctuator::OpenParen),
            Rest::Items(List::Arguments(Form::New(Arguments::Listed))),
            Step::Finish(Form::New(Arguments::Unlisted)),
        ),
        Rest::Yield => Step::Eat(Code::Word(Word::Yield), Rest::YieldOperand),
        Rest::YieldOperand => {
            if opens_at(ahead) {
                Step::Read(
                    Mode::Same,
                    Goal::Expression(Slot::Assignment),
                    Rest::Done(Form::Yield),
                )
            } else {
                Step::Finish(Form::Yield)
            }
        }
        Rest::Comma => Step::Eat(Code::Punctuator(Punctuator::Comma), Rest::Element),
        Rest::Element => Step::Read(
            Mode::Same,
            Goal::Expression(Slot::Assignment),
            Rest::MoreElements,
        ),
        Rest::MoreElements => eat_or(
            ahead,
            Code::Punctuator(Punctuator::Comma),
            Rest::Element,
            Step::Finish(Form::Seq),
        ),
        Rest::Question => Step::Eat(Code::Punctuator(Punctuator::Question), Rest::Middle),
        Rest::Middle => Step::Read(
            Mode::Free,
            Goal::Expression(Slot::Assignment),
            Rest::TokenLast(
                Code::Punctuator(Punctuator::Colon),
                Mode::Same,
                Goal::Expression(Slot::Assignment),
                Form::Cond,
            ),
        ),
        Rest::OptionalSign => Step::Eat(Code::Punctuator(Punctuator::QuestionDot), Rest::Link),
        Rest::Link => link(ahead),
        Rest::Block => Step::Eat(
            Code::Punctuator(Punctuator::OpenBrace),
            Rest::Statements(Body::Block),
        ),
        Rest::Statements(body) => {
            if at_stop(ahead) {
                body_end(body)
            } else {
                Step::Read(Mode::Free, Goal::Statement, Rest::Statements(body))
            }
        }
        Rest::Test(tested) => Step::Eat(Code::from(tested), Rest::TestOpen(tested)),
        Rest::TestOpen(tested) => {
            Step::Eat(
                Code::Punctuator(Punctuator::OpenParen),
                Rest::TestInside(tested),
            )
        }
        Rest::TestInside(tested) => {
            Step::Read(
                Mode::Free,
                Goal::Expression(Slot::Expression),
                Rest::TestClose(tested),
            )
        }
        Rest::TestClose(tested) => {
            Step::Eat(
                Code::Punctuator(Punctuator::CloseParen),
                Rest::TestBody(tested),
            )
        }
        Rest::TestBody(tested) => Step::Read(Mode::Free, Goal::Statement, behind_body(tested)),
        Rest::Else => eat_or(
            ahead,
            Code::Word(Word::Else),
            Rest::Last(Mode::Free, Goal::Statement, Form::If),
            Step::Finish(Form::If),
        ),
        Rest::Return => Step::Eat(Code::Word(Word::Return), Rest::ReturnValue),
        Rest::ReturnValue => eat_or(
            ahead,
            Code::Punctuator(Punctuator::Semicolon),
            Rest::Done(Form::Return),
            Step::Read(
                Mode::Free,
                Goal::Expression(Slot::Expression),
                Rest::Token(Code::Punctuator(Punctuator::Semicolon), Form::Return),
            ),
        ),
        Rest::Plain => Step::Read(
            Mode::Free,
            Goal::Expression(Slot::Expression),
            Rest::PlainEnd,
        ),
        Rest::PlainEnd => eat_or(
            ahead,
            Code::Punctuator(Punctuator::Colon),
            Rest::Last(Mode::Free, Goal::Statement, Form::Labeled),
            Step::Eat(
                Code::Punctuator(Punctuator::Semicolon),
                Rest::Done(Form::ExprStmt),
            ),
        ),
        Rest::For => Step::Eat(Code::Word(Word::For), Rest::ForOpen),
        Rest::ForOpen => Step::Eat(Code::Punctuator(Punctuator::OpenParen), Rest::ForInit),
        Rest::ForInit => for_init(ahead),
        Rest::ForHead => eat_or(
            ahead,
            Code::Word(Word::In),
            Rest::ForObject,
            Step::Eat(
                Code::Punctuator(Punctuator::Semicolon),
                Rest::ForTest { init: true },
            ),
        ),
        Rest::ForObject => Step::Read(
            Mode::Free,
            Goal::Expression(Slot::Expression),
            Rest::TokenLast(
                Code::Punctuator(Punctuator::CloseParen),
                Mode::Free,
                Goal::Statement,
                Form::ForIn,
            ),
        ),
        Rest::ForTest { init } => eat_or(
            ahead,
            Code::Punctuator(Punctuator::Semicolon),
            Rest::ForUpdate { init, test: false },
            Step::Read(
                Mode::Free,
                Goal::Expression(Slot::Expression),
                Rest::ForSecond { init },
            ),
        ),
        Rest::ForSecond { init } => {
            Step::Eat(
                Code::Punctuator(Punctuator::Semicolon),
                Rest::ForUpdate { init, test: true },
            )
        }
        Rest::ForUpdate { init, test } => eat_or(
            ahead,
            Code::Punctuator(Punctuator::CloseParen),
            Rest::Last(
                Mode::Free,
                Goal::Statement,
                Form::For {
                    init,
                    test,
                    update: false,
                },
            ),
            Step::Read(
                Mode::Free,
                Goal::Expression(Slot::Expression),
                Rest::TokenLast(
                    Code::Punctuator(Punctuator::CloseParen),
                    Mode::Free,
                    Goal::Statement,
                    Form::For {
                        init,
                        test,
                        update: true,
                    },
                ),
            ),
        ),
        Rest::Property => eat_or(
            ahead,
            Code::Punctuator(Punctuator::OpenBracket),
            Rest::ComputedKey,
            Step::Read(
                Mode::Free,
                Goal::Expression(Slot::PropertyName),
                Rest::TokenLast(
                    Code::Punctuator(Punctuator::Colon),
                    Mode::Free,
                    Goal::Expression(Slot::Assignment),
                    Form::Prop(Key::Fixed),
                ),
            ),
        ),
        Rest::ComputedKey => Step::Read(
            Mode::Free,
            Goal::Expression(Slot::Assignment),
            Rest::KeyClose,
        ),
        Rest::KeyClose => Step::Eat(
            Code::Punctuator(Punctuator::CloseBracket),
            Rest::TokenLast(
                Code::Punctuator(Punctuator::Colon),
                Mode::Free,
                Goal::Expression(Slot::Assignment),
                Form::Prop(Key::Computed),
            ),
        ),
        Rest::Var(declared) => Step::Eat(Code::Word(Word::Var), Rest::Names(declared)),
        Rest::Names(declared) => Step::Read(Mode::Free, Goal::Name, Rest::Bound(declared)),
        Rest::Bound(declared) => eat_or(
            ahead,
            Code::AssignOperator(AssignOperator::Assign),
            Rest::Value(declared),
            more_names(ahead, declared),
        ),
        Rest::Value(declared) => {
            Step::Read(
                Mode::Same,
                Goal::Expression(Slot::Assignment),
                Rest::MoreNames(declared),
            )
        }
        Rest::MoreNames(declared) => more_names(ahead, declared),
    }
}
