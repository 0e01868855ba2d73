// How a record comes together: from nothing or from a first child, by tokens and children, until it is complete.

ghost use Rattle.std.specs.Prelude.{◌≡◌, ◌+◌, ◌^◌, ◌<◌};
ghost use Rattle.grammar.specs.Derives.{lo_of};
ghost use Rattle.recognizer.specs.Reads.{Started, Alone, Eaten, Joined, Completed};

use crate::extent::Extent;
use crate::found::{Found, Parts};
use fitting::{Summary, children_fit, traits_of};
use kinds::Form;
use records::Children;
use token::{Code, Token};

/// Where the next token begins; 0 where there is none, as the grammar's definition has it.
fn lo_of(ahead: &[Token]) -> u32
    ensures { result ≡ lo_of ahead.now }
{
    ahead.first().map_or(0, |token| token.lo)
}

impl<'a> Found<'a> {
    /// The parts of a record whose first child this is.
    pub fn alone(self) -> Parts<'a>
        requires few { self.below.records + 1 < 2 ^ 64 }
        requires nests { self.below.depth + 1 < 2 ^ 64 }
        ensures { Alone self.entry result }
    {
        Parts {
            children: Summary::empty().with(self.traits),
            good: self.good,
            lo: self.lo,
            hi: self.hi,
            ahead: self.ahead,
            below: self.below.raised(),
            row: Children::one(self.slot),
        }
    }
}

impl<'a> Parts<'a> {
    /// A record that begins with the next token, over a row of no trees.
    pub fn start(ahead: &'a [Token], row: Children) -> Parts<'a>
        ensures { Started ahead.now row result }
    {
        Parts {
            children: Summary::empty(),
            good: true,
            lo: lo_of(ahead),
            hi: 0,
            ahead,
            below: Extent::NONE,
            row,
        }
    }

    /// The parts behind the token `code`, if it is the next.
    pub fn eat(self, code: Code) -> Option<Parts<'a>>
        ensures { Eaten self.entry code result }
    {
        let (token, ahead) = self.ahead.split_first()?;
        // `same` and no `!=`: tried with the lemma that ties the two, and `returns` stayed open.
        if !token.code.same(code) {
            return None;
        }
        Some(Parts {
            hi: token.hi,
            ahead,
            ..self
        })
    }

    /// The parts with one more child, which makes the row of them `row`.
    pub fn join(self, child: Found<'a>, row: Children) -> Parts<'a>
        requires few { self.below.records + child.below.records + 1 < 2 ^ 64 }
        requires nests { child.below.depth + 1 < 2 ^ 64 }
        ensures { Joined self.entry child.entry row result }
    {
        Parts {
            children: self.children.with(child.traits),
            good: self.good && child.good,
            lo: self.lo,
            hi: child.hi,
            ahead: child.ahead,
            below: self.below.beside(child.below.raised()),
            row,
        }
    }

    /// The record of this form over all its parts, kept at `slot`.
    pub fn complete(self, form: Form, slot: u16) -> Found<'a>
        ensures { Completed self.entry form slot result }
    {
        Found {
            traits: traits_of(form, self.children),
            good: children_fit(form, self.children) && self.good,
            lo: self.lo,
            hi: self.hi,
            ahead: self.ahead,
            below: self.below,
            slot,
        }
    }
}
