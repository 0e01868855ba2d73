// The tokens of a rule, with places that depend on its words alone.
ghost use Rattle.std.specs.Prelude.{◌≡◌, min};

use crate::shape::code_of_word;
use std::alloc::{AllocError, AllocFailed, Global};
use std::io;
use token::Token;

/// Why a rule has no tokens.
#[derive(Clone, Copy, PartialEq, Eq, Debug)]
pub enum Fault {
    /// A word is no token.
    NoToken,
    NoMemory,
}

impl From<AllocError> for Fault {
    fn from(_: AllocError) -> Fault {
        Fault::NoMemory
    }
}

impl<T: Drop> From<AllocFailed<T>> for Fault {
    fn from(_: AllocFailed<T>) -> Fault {
        Fault::NoMemory
    }
}

/// So that a program can end by it.
impl From<Fault> for io::Error {
    fn from(fault: Fault) -> io::Error {
        io::Error::from(match fault {
            Fault::NoToken => io::ErrorKind::InvalidInput,
            Fault::NoMemory => io::ErrorKind::OutOfMemory,
        })
    }
}

/// The tokens of a rule. A place counts bytes in the words joined by single spaces, and the first word begins at 1: however
/// many spaces stand between two words, the places are the same.
pub fn tokens_of(heap: Global, rule: &str) -> Result<Vec<Token>, Fault> {
    let mut tokens = Vec::new(heap);
    let mut lo = 1u32;
    for word in rule.split(' ').filter(|word| !word.is_empty()) {
        let code = code_of_word(word).ok_or(Fault::NoToken)?;
        let hi = lo.saturating_add(offset(word.len()));
        tokens.push(Token { code, lo, hi })?;
        lo = hi.saturating_add(1);
    }
    Ok(tokens)
}

/// A length as an offset. Rules are far shorter than 4 GiB; a longer one would keep its last offset.
pub fn offset(length: usize) -> u32
    ensures { result ≡ min length 4294967295 }
{
    u32::try_from(length).unwrap_or(u32::MAX)
}
