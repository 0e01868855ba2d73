// The records of trees: what a record holds, what a slot stands for, and how records are drawn and given back.

#![tactic(auto)]

mod build;
mod give_back;
mod laws;
mod record;
mod slots;
mod store;

pub use build::{Children, nest};
pub use give_back::give_back_tree;
pub use laws::{derived_is_sound, records_measure_trees};
pub use record::{Head, Mark, Record};
pub use slots::{look, make, stamp};
pub use store::Store;
