// What came of the statements of a block.

use linked_program::code::Instruction;
use positions::work::Position;

/// What came of the statements of a block: the instance goes on at that position, in the block of those statements; it gave that value
/// back; or no more could be done, and so many others stand above it.
#[derive(Clone, Copy)]
pub enum Ran<'a> {
    On(Position, &'a [Instruction]),
    Gave(i64),
    Stopped(usize),
}

/// What came of the statements that an instance has left: it gave that value back; or no more could be done, and so many others stand
/// above it, each of which was called by the one below it.
#[derive(Clone, Copy)]
pub enum Ended {
    Gave(i64),
    Stopped(usize),
}

/// What came of a statement that calls another instance: nothing was done; that instance is over, and its value was received; or no more
/// could be done, and so many instances stand above the one that called.
#[derive(Clone, Copy)]
pub enum Inside {
    Nothing,
    Back,
    Stays(usize),
}
