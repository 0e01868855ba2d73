// Chains of records, written once for every record that has a link: the records are a slice that the caller lends, their
// slots count from 1, and 0 ends every chain.
#![tactic(auto)]

mod bound;
mod free;

pub use bound::Link;
pub use free::{
    chain_laws, count, draw, give_back, last_slot, link_to, make, next_of, record_at, record_mut,
    release, take,
};
