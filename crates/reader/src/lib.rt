// The reader: one grammar in code, as a table of what is left to read of a record, and where what is read goes. The walk
// over it is the recognizer's.
#![tactic(auto)]

pub mod begin;
pub mod glance;
pub mod goal;
pub mod rest;
pub mod sink;
pub mod step;
pub mod store;
pub mod turn;
pub mod unread;

pub use goal::{Goal, Mode};
pub use rest::Rest;
pub use unread::Unread;
