// A comment store of spliced chains: each list is a chain of records, and a move joins two chains by one link.
#![tactic(auto)]

mod heads;
mod linked;
mod notes;
mod store;

pub use heads::Head;
pub use notes::Note;
pub use store::Spliced;
