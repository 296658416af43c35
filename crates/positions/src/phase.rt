//! What a strand does next, and what an advance comes to.
use meaning::FaultKind;

/// What stopped a run, and the statement where it did: its procedure's number, and its own number in it.
#[derive(Clone, Copy)]
pub struct Fault {
    pub kind: FaultKind,
    pub procedure: usize,
    pub statement: u32,
}

/// What a strand's topmost instance does next: it is entered, does what it has left, has spawned a child, does its implicit
/// sync, leaves, or does nothing after a fault.
#[derive(Clone, Copy)]
pub enum Phase {
    Entering,
    Running,
    AtSpawn,
    Returning(i64),
    Leaving(i64),
    Broken(Fault),
}

/// What an advance came to: a small step, or the point at which there is none.
#[derive(Clone, Copy)]
pub enum Paused {
    Working,
    AtSpawn,
    AtSync,
    Returned,
    Finished,
    Faulted,
}
