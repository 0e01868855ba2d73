// What is known of a record that was read, and of one whose children are still being read.

use crate::extent::Extent;
use fitting::{Summary, Traits};
use records::Children;
use token::Token;

// The fields stand from the widest to the narrowest: both are copied for every child, and in another order in more pieces.

/// A tree that was read: the tokens behind it, the records below its root, its root's place, where the sink keeps it, whether in
/// each of its records the children fit, and what the place where it stands can ask of it.
#[derive(Clone, Copy, PartialEq, Eq, Debug)]
pub struct Found<'a> {
    pub ahead: &'a [Token],
    pub below: Extent,
    pub lo: u32,
    pub hi: u32,
    pub slot: u16,
    pub good: bool,
    pub traits: Traits,
}

/// A record's children as far as they are read: the tokens behind them, their records, where the record begins and where the
/// last token read ends, the row that they stand in, whether the children fit in each record below, and what is kept of them.
#[derive(Clone, Copy, PartialEq, Eq, Debug)]
pub struct Parts<'a> {
    pub ahead: &'a [Token],
    pub below: Extent,
    pub lo: u32,
    pub hi: u32,
    pub row: Children,
    pub good: bool,
    pub children: Summary,
}
