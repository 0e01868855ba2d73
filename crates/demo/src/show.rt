// Printing what was read, what a store answers and what it holds.
use crate::rule::{Comment, Fault};
use comments::{Move, Place, Side, Spot, Store};
use refusal::Refusal;
use std::io;
use token::{Code, Token};
use words::offset;

/// The rule that is shown: its text, and its comments, which stores know by their numbers.
#[derive(Clone, Copy, PartialEq, Eq, Debug)]
pub struct Shown<'a> {
    pub text: &'a str,
    pub comments: &'a [Comment],
}

impl<'a> Shown<'a> {
    /// Behind the last offset of the text.
    pub fn end(self) -> u32 {
        offset(self.text.len()).saturating_add(1)
    }

    /// What a comment says, by its number.
    fn says(self, number: u32) -> &'a str {
        self.comments
            .iter()
            .find(|comment| comment.number == number)
            .map_or("", |comment| part(self.text, comment.text))
    }
}

pub fn show_rule(rt: &HostRuntime, shown: Shown, tokens: &[Token]) -> io::Result<()> {
    for token in tokens {
        show_token(rt, shown.text, *token)?;
    }
    for comment in shown.comments.iter() {
        show_comment(rt, shown.text, *comment)?;
    }
    Ok(())
}

fn show_token(rt: &HostRuntime, text: &str, token: Token) -> io::Result<()> {
    let sort = match token.code {
        Code::Name => "name",
        Code::Number => "number",
        Code::String => "string",
        Code::Word(_) => "word",
        Code::Punctuator(_) => "punctuator",
        Code::Operator(_) => "operator",
        Code::AssignOperator(_) => "assigning operator",
    };
    let Token { lo, hi, .. } = token;
    let at = Place { lo, hi };
    println!(rt; "   {at}: {sort} {}", part(text, at))
}

fn show_comment(rt: &HostRuntime, text: &str, comment: Comment) -> io::Result<()> {
    let verb = match comment.spot.side {
        Side::Leading => "leads",
        Side::Trailing => "trails",
    };
    println!(rt;
        "   comment {}, {}, {verb} offset {}",
        comment.number,
        part(text, comment.text),
        comment.spot.offset
    )
}

pub fn show_fault(rt: &HostRuntime, text: &str, fault: Fault) -> io::Result<()> {
    match fault {
        Fault::Unknown(at) => {
            println!(rt; "   {at}: {} is no token. Once more:", part(text, at))
        }
        Fault::Unclosed(at) => println!(rt; "   {at}: this comment has no end. Once more:"),
        Fault::NoMemory => println!(rt; "   There is no memory for it. Once more:"),
    }
}

/// The part of a text at a place.
fn part(text: &str, at: Place) -> &str {
    text.get(at.lo as usize..at.hi as usize).unwrap_or("")
}

/// A store refuses only for want of records.
pub fn show_answer(
    rt: &HostRuntime,
    store: &str,
    comment: u32,
    answer: Result<(), Refusal>,
) -> io::Result<()> {
    match answer {
        Ok(()) => println!(rt; "   {store}: comment {comment} is in."),
        Err(refusal) => {
            let number = refusal.number();
            let value = refusal.value();
            println!(rt;
                "   {store}: comment {comment} is refused by {number}, records needed: {value}."
            )
        }
    }
}

pub fn show_move(rt: &HostRuntime, m: &Move) -> io::Result<()> {
    let Move { from, to } = *m;
    println!(rt; "   from the pair at {from} to what stands at {to}")
}

/// Prints every list of a store that is not empty, at the offsets of the rule. A store has no iterator: it answers by offset
/// and rank.
pub fn show_lists<S: Store>(
    rt: &HostRuntime,
    name: &str,
    store: &S,
    shown: Shown,
) -> io::Result<()> {
    for offset in 0..shown.end() {
        show_list(rt, name, store, shown, Side::Leading.at(offset))?;
        show_list(rt, name, store, shown, Side::Trailing.at(offset))?;
    }
    Ok(())
}

fn show_list<S: Store>(
    rt: &HostRuntime,
    name: &str,
    store: &S,
    shown: Shown,
    spot: Spot,
) -> io::Result<()> {
    let count = store.count(spot);
    if count == 0 {
        return Ok(());
    }
    let side = match spot.side {
        Side::Leading => "leading",
        Side::Trailing => "trailing",
    };
    print!(rt; "   {name}, {side} at offset {}:", spot.offset)?;
    for rank in 0..count {
        if let Some(comment) = store.comment(spot, rank) {
            print!(rt; " {comment} {}", shown.says(comment))?;
        }
    }
    println!(rt; "")
}
