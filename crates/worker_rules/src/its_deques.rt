//! The deques of a run by threads.
ghost use Rattle.std.specs.Prelude.{◌≡◌, length, IfOk};

use std::alloc::{AllocError, Global};
use stealing_deques::{Continuation, NewDeque, new_deques};

/// How many continuations a deque has room for at first. Few wait in one, since where four do the next child is called, and room for
/// many takes the allocator longer at each run.
const FIRST_CAPACITY: usize = 8;

/// A new deque for each of so many workers. Want of memory is the only error.
pub fn deques_for<T: Continuation>(
    alloc: Global,
    workers: usize,
) -> Result<Vec<NewDeque<T>>, AllocError>
    ensures count { IfOk result (λ deques. length deques.items ≡ workers) }
{
    new_deques(alloc, workers, FIRST_CAPACITY)
}
