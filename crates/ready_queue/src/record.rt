//! What a pass has done.

use std::collections::LinkedList;

/// The name of a pass, made of numbers of splits.
pub type Name = LinkedList<u64>;

/// What a pass has done: how often it was split, the tickets that it put, and those that it took, each
/// with the name of the pass that put it. No value of it is made: it stands in contracts, where a list is
/// one of numbers.
pub struct Record {
    pub name: Name,
    pub splits: u64,
    pub put: LinkedList<u64>,
    pub taken: LinkedList<(u64, Name)>,
}

/// The records under a pass: its own first, and then those that were joined to it.
pub type Records = LinkedList<Record>;
