// From a rule's words, with spaces between them, to its tokens.
#![tactic(auto)]

mod shape;
mod tokens;

pub use shape::code_of_word;
pub use tokens::{Fault, offset, tokens_of};
