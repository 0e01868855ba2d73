// Comments at offsets of a text: what a store of comments means, and how comments are carried from place to place.
#![tactic(auto)]

mod agree;
mod carrying;
mod place;
mod store;

pub use agree::{carry_both, same_list, same_lists, same_meaning};
pub use carrying::carry;
pub use place::{Move, Place};
pub use store::{Fill, Side, Spot, Store};
