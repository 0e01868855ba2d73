// A comment store that is a register of each comment's offset and rank, over records lent by the caller.
#![tactic(auto)]

mod adding;
mod entry;
mod joining;
mod pass;
mod register;
mod store;

pub use entry::Entry;
pub use register::Register;
