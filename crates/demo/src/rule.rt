// From a rule's words, one space between two, to its tokens and comments.
use comments::{Place, Side, Spot};
use std::alloc::{AllocError, AllocFailed, Global};
use token::Token;
use words::{code_of_word, offset};

/// A comment: its number, where its text stands, and what it belongs to. It leads the token behind it, or trails the last one.
#[derive(Clone, Copy, PartialEq, Eq, Debug)]
pub struct Comment {
    pub number: u32,
    pub text: Place,
    pub spot: Spot,
}

#[derive(Drop)]
pub struct Rule {
    pub tokens: Vec<Token>,
    pub comments: Vec<Comment>,
}

/// Why a line is no rule. Not the fault of `words`, which says no place.
#[derive(Clone, Copy, PartialEq, Eq, Debug)]
pub enum Fault {
    /// The word there is no token.
    Unknown(Place),
    /// The comment that begins there has no end.
    Unclosed(Place),
    NoMemory,
}

impl From<AllocError> for Fault {
    fn from(_: AllocError) -> Fault {
        Fault::NoMemory
    }
}

impl<T: Drop> From<AllocFailed<T>> for Fault {
    fn from(_: AllocFailed<T>) -> Fault {
        Fault::NoMemory
    }
}

impl Rule {
    /// Reads the words of a rule. What stands from a word `/*` to a word `*/` is a comment.
    pub fn read(heap: Global, text: &str) -> Result<Rule, Fault> {
        let mut rule = Rule {
            tokens: Vec::new(heap),
            comments: Vec::new(heap),
        };
        let mut open: Option<Place> = None;
        let mut lo = 0u32;
        for word in text.split(' ') {
            let hi = lo.saturating_add(offset(word.len()));
            let place = Place { lo, hi };
            match (open, word) {
                (Some(begin), "*/") => {
                    rule.add_comment(Place { lo: begin.lo, hi })?;
                    open = None;
                }
                (Some(_), _) | (None, "") => {}
                (None, "/*") => open = Some(place),
                (None, _) => rule.add_token(word, place)?,
            }
            lo = hi.saturating_add(1);
        }
        match open {
            Some(begin) => Err(Fault::Unclosed(begin)),
            None => Ok(rule),
        }
    }

    /// A comment trails the last token, until one comes behind it.
    fn add_comment(&mut self, text: Place) -> Result<(), Fault> {
        let number = offset(self.comments.len()).saturating_add(1);
        let end = self.tokens.last().map_or(0, |token| token.hi);
        self.comments.push(Comment {
            number,
            text,
            spot: Side::Trailing.at(end),
        })?;
        Ok(())
    }

    /// The comments that had no token behind them yet lead this one.
    fn add_token(&mut self, word: &str, place: Place) -> Result<(), Fault> {
        let code = code_of_word(word).ok_or(Fault::Unknown(place))?;
        let Place { lo, hi } = place;
        for comment in self.comments.iter_mut() {
            if comment.spot.side == Side::Trailing {
                comment.spot = Side::Leading.at(lo);
            }
        }
        self.tokens.push(Token { code, lo, hi })?;
        Ok(())
    }
}
