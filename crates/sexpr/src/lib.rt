// A tree of a pool as text: an S-expression with the place of each record.
#![tactic(auto)]

mod names;
mod tree;

pub use tree::{Detail, show};
