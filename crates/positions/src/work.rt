//! What an instance has left to do, by numbers.

/// A place in the code of a procedure: a block, and the number of its next instruction.
#[derive(Clone, Copy)]
pub struct Position {
    pub block: usize,
    pub index: usize,
}

/// A loop: where its instruction stands in the code of the instance's procedure, and its first number.
#[derive(Clone, Copy)]
pub struct Loop {
    pub block: usize,
    pub index: usize,
    pub low: i64,
}

/// Iterations of a loop: the first of them, counted from 0, and how many there are.
#[derive(Clone, Copy)]
pub struct Share {
    pub first: u32,
    pub count: u32,
}

/// What an instance has left: its innermost block from a place on, nothing, or iterations of a loop, which are to be halved
/// at most so many times, are the second half, or are done one by one.
#[derive(Clone, Copy)]
pub enum Work {
    Block(Position),
    Over,
    Halves(Loop, u32, Share),
    Second(Loop, u32, Share),
    Turns(Loop, Share),
}
