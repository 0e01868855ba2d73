// The reader with the test whether each child fits: it recognizes exactly what the grammar derives, and puts it up. What is left to
// read, and how it goes on, is the reader's table; what is kept of a tree, and the walk that keeps it, stand here.
#![tactic(auto)]

pub mod extent;
pub mod found;
pub mod parts;
pub mod read;
pub mod tree;

pub use read::{build, load, recognize};
pub use reader::Unread;
