// Reads a tree: children before their parent, siblings and what follows an expression in loops.

ghost use Rattle.std.specs.Prelude.{◌≡◌, ◌+◌, ◌^◌, ◌<◌, ◌≤◌, length, MatchResult};
ghost use Rattle.grammar.specs.Parser.{takes, frame, mode as mode_in};
ghost use Rattle.reader.specs.Table.{do_of, goal_of, mode_of, turn_of};
ghost use Rattle.reader.specs.Reads.{NotParsed};
ghost use Rattle.recognizer.specs.Reads.{standing_of, Parsed, Made, NotMade, Onward};
ghost use Rattle.reader.specs.Width.{NotScript, refused_of};
ghost use Rattle.recognizer.specs.Width.{Whole, Scripted};

use crate::found::{Found, Parts};
use kinds::Slot;
use kinds::level::fits;
use reader::begin::begin;
use reader::goal::{Goal, allowed};
use reader::rest::{Body, Rest};
use reader::sink::Sink;
use reader::step::{Step, next_step};
use reader::turn::{Turn, behind, first_slot, grown, stands, turn_at};
use reader::unread::{Unread, refused};
use records::Head;
use token::Token;

/// How deep a script may nest, itself counted.
const DEEPEST: usize = 512;

/// Whether the expression goes on with the token behind it, when it is read for the slot.
fn taken(left: Found, turn: Turn, slot: Slot, allow_in: bool) -> bool
    ensures { result ≡ takes allow_in slot (standing_of left.entry) (frame (turn_of turn)) }
{
    let traits = left.traits;
    let form = grown(turn, traits.is_chain());
    stands(turn, allow_in)
        && traits.suits(first_slot(turn))
        && fits(slot, form, traits.is_call(), traits.is_target())
}

/// Whether what was read for the goal goes on with the token behind it.
fn goes_on(left: Found, goal: Goal, allow_in: bool) -> bool
    ensures { Onward allow_in (goal_of goal) left.entry result }
{
    match goal {
        Goal::Expression(slot) => left.traits.is_expression()
            && taken(left, turn_at(left.ahead), slot, allow_in),
        _ => false,
    }
}

/// A record: what is left to read of it, from `begun` on, with its parts in `start`; its other children nest at most
/// `inner` deep.
#[cycle(record_tree)]
fn record<'a, S: Sink>(
    begun: Rest,
    start: Parts<'a>,
    allow_in: bool,
    inner: usize,
    sink: &mut S,
) -> Result<Found<'a>, Unread>
    requires { start.below.records + length start.ahead.now < 2 ^ 64 }
    ensures { MatchResult result (λ f. Made allow_in (do_of begun) start.entry S.rows sink.old sink.new f) (λ e. NotMade allow_in (do_of begun) start.entry inner e) }
{
    let mut rest = begun;
    let mut parts = start;
    loop {
        match next_step(parts.ahead, rest) {
            Step::Finish(form) => {
                let head = Head {
                    form,
                    lo: parts.lo,
                    hi: parts.hi,
                };
                let slot = sink.nest(head, parts.row);
                return Ok(parts.complete(form, slot));
            }
            Step::Eat(code, then) => {
                parts = parts.eat(code).ok_or(Unread::NoDerivation)?;
                rest = then;
            }
            Step::Read(mode, goal, then) => {
                let child = tree(parts.ahead, goal, allowed(mode, allow_in), inner, sink)?;
                let row = sink.push(parts.row, child.slot);
                parts = parts.join(child, row);
                rest = then;
            }
        }
    }
}

/// A tree for the goal, from the tokens ahead, that nests at most `room` deep but for what stands left of an operator.
#[cycle(record_tree)]
fn tree<'a, S: Sink>(
    ahead: &'a [Token],
    goal: Goal,
    allow_in: bool,
    room: usize,
    sink: &mut S,
) -> Result<Found<'a>, Unread>
    ensures { MatchResult result (λ f. Parsed ahead.now allow_in (goal_of goal) S.rows sink.old sink.new f) (λ e. NotParsed ahead.now allow_in (goal_of goal) room e) }
{
    if room == 0 {
        return Err(Unread::TooDeep);
    }
    let begun = begin(ahead, goal).ok_or(Unread::NoDerivation)?;
    let none = sink.none();
    let mut found = record(begun, Parts::start(ahead, none), allow_in, room - 1, sink)?;
    while goes_on(found, goal, allow_in) {
        let rest = behind(turn_at(found.ahead), found.traits.is_chain()).ok_or(
            Unread::NoDerivation,
        )?;
        found = record(rest, found.alone(), allow_in, room - 1, sink)?;
    }
    Ok(found)
}

/// The script that the tokens are, as far as their order decides: whether each child may stand where it stands, and how deep
/// they nest, is not looked at. It goes into the sink.
fn whole<'a, S: Sink>(tokens: &'a [Token], sink: &mut S) -> Result<Found<'a>, Unread>
    ensures { MatchResult result (λ f. Whole tokens.now S.rows sink.old sink.new f) (λ e. NotScript tokens.now e) }
{
    let start = Parts::start(tokens, sink.none());
    let statements = Rest::Statements(Body::Script);
    let found = record(statements, start, true, DEEPEST - 1, sink).map_err(
        |why| -> Unread
            ensures { result ≡ refused_of (length tokens.entry.now) why }
        { refused(tokens.len(), why) },
    )?;
    if !found.ahead.is_empty() {
        return Err(Unread::NoDerivation);
    }
    Ok(found)
}

/// The script that the tokens derive. It goes into the sink. What stands where is decided by the next token alone, so the
/// tree is read first, and whether each child may stand where it stands is asked at the end.
pub fn script<S: Sink>(tokens: &[Token], sink: &mut S) -> Result<Found<'static>, Unread>
    ensures { MatchResult result (λ f. Scripted tokens.now S.rows sink.old sink.new f) (λ e. NotScript tokens.now e) }
{
    let found = whole(tokens, sink)?;
    if !found.good {
        return Err(Unread::NoDerivation);
    }
    if found.below.depth >= DEEPEST {
        return Err(Unread::TooDeep);
    }
    // Nothing is ahead of a script, so what is answered need not borrow the tokens.
    Ok(Found {
        traits: found.traits,
        good: found.good,
        lo: found.lo,
        hi: found.hi,
        ahead: &[],
        below: found.below,
        slot: found.slot,
    })
}
