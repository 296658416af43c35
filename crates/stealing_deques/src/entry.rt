//! What is in a deque, and what each end knows of it.

use crate::continuation::Continuation;
use std::collections::LinkedList;

/// Which instance a strand has at its bottom or has come back to, and where the strand begins. No value of it is made.
pub struct Spot {
    pub name: LinkedList<u64>,
    pub since: LinkedList<u64>,
}

/// What contracts see of an entry: its push's number, the spot that it waits for, and the spot of its own lowest instance.
pub struct PlainEntry {
    pub number: u64,
    pub at: Spot,
    pub to: Spot,
}

/// A continuation in a deque, with the number of its push.
#[derive(Drop)]
pub struct Entry<T: Continuation> {
    pub(crate) number: u64,
    pub(crate) task: T,
}

/// What an end of a deque knows: what it may do, how many were pushed, the spot that the owner has come to, the numbers of what was
/// popped, and what was stolen. No value of it is made.
pub struct Knowledge {
    pub owns: bool,
    pub steals: bool,
    pub pushed: u64,
    pub here: Option<Spot>,
    pub popped: LinkedList<u64>,
    pub stolen: LinkedList<PlainEntry>,
}

/// What contracts see of the owner's end: the deque's number, how many it has pushed, its spot, where it is bound to one, and the numbers of what it
/// has popped, the last first.
pub struct PlainOwner {
    pub number: u64,
    pub pushed: u64,
    pub here: Option<Spot>,
    pub popped: LinkedList<u64>,
}

/// What contracts see of the thieves' end: the deque's number, and what was stolen, the last first.
pub struct PlainThief {
    pub number: u64,
    pub stolen: LinkedList<PlainEntry>,
}
