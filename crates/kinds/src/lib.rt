// The vocabulary of trees: the kinds of record, the operators, the forms, and what may stand bare in which slot.

#![tactic(auto)]

mod code;
pub mod form;
pub mod kind;
pub mod level;
pub mod operator;

pub use form::{Arguments, Binding, Constant, Entry, Form, Key, Link, Own, Sort};
pub use kind::Kind;
pub use level::{Class, Slot};
pub use operator::{BinaryOperator, Side, UnaryOperator, UpdateOperator};
