// The pairs that go: those directly round a name. Until trees are read, this is all that the program looks for.
use comments::{Move, Place};
use std::alloc::{AllocError, Global};
use token::{Code, Punctuator, Token, Word};

/// The moves of the pairs that go, from the inner pair to the outer one.
pub fn moves_of(heap: Global, tokens: &[Token]) -> Result<Vec<Move>, AllocError> {
    let mut moves = Vec::new(heap);
    for (i, token) in tokens.iter().enumerate() {
        if token.code == Code::Name {
            let (before, behind) = tokens.split_at(i);
            pairs_round(before, *token, &behind[1..], &mut moves)?;
        }
    }
    Ok(moves)
}

/// Adds a move for each pair directly round a token, told what stands before it and behind it.
fn pairs_round(
    before: &[Token],
    token: Token,
    behind: &[Token],
    moves: &mut Vec<Move>,
) -> Result<(), AllocError> {
    let to = place_of(token, token);
    let mut outside = (before, behind);
    while let (Some((open, before)), Some((close, behind))) = (
        outside.0.split_last(),
        outside.1.split_first(),
    ) {
        if !is_pair(before.last(), *open, *close, behind.first()) {
            break;
        }
        let from = place_of(*open, *close);
        moves.push(Move { from, to })?;
        outside = (before, behind);
    }
    Ok(())
}

/// From the first of two tokens to the last one.
fn place_of(first: Token, last: Token) -> Place {
    Place {
        lo: first.lo,
        hi: last.hi,
    }
}

/// Whether two tokens are the parentheses of a pair, and not of arguments, parameters or a statement's head; told what stands
/// outside of them.
fn is_pair(before: Option<&Token>, open: Token, close: Token, behind: Option<&Token>) -> bool {
    open.code == Code::Punctuator(Punctuator::OpenParen)
        && close.code == Code::Punctuator(Punctuator::CloseParen)
        && before.is_none_or(|token| before_operand(*token))
        && !behind.is_some_and(|token| token.code == Code::Punctuator(Punctuator::Arrow))
}

/// Whether an operand begins behind a token, whatever stands before that.
fn before_operand(token: Token) -> bool {
    match token.code {
        Code::Operator(_) | Code::AssignOperator(_) => true,
        Code::Punctuator(sign) => opens_operand(sign),
        Code::Word(word) => comes_before_operand(word),
        Code::Name | Code::Number | Code::String => false,
    }
}

fn comes_before_operand(word: Word) -> bool {
    matches!(
        word,
        Word::Typeof
            | Word::Void
            | Word::Delete
            | Word::In
            | Word::Instanceof
            | Word::Return
            | Word::Await
            | Word::Yield
    )
}

fn opens_operand(sign: Punctuator) -> bool {
    matches!(
        sign,
        Punctuator::OpenParen
            | Punctuator::OpenBracket
            | Punctuator::Comma
            | Punctuator::Semicolon
            | Punctuator::Question
            | Punctuator::Colon
            | Punctuator::Arrow
    )
}
