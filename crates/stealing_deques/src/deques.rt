//! Which deques there are, and new ones.
ghost use Rattle.std.specs.Prelude.{◌≡◌, length, IfOk};

use crate::continuation::Continuation;
use crate::entry::{Entry, Knowledge};
use crate::rule::PlacesInOrder;
use crossbeam_deque::Worker;
use std::alloc::{AllocError, Global};
use std::marker::{Brand, Model};

/// The deques of a run, in the order of their numbers. Each run picks them.
pub trait Deques {
    ghost use Rattle.std.specs.Prelude.{List};
    ghost use Rattle.stealing_deques.specs.Identity.{Identity};

    ghost deques: { List Identity };
}

impl Deques for Brand {
    ghost use Rattle.std.specs.Prelude.{[]};

    ghost deques = { [] };
}

/// A deque with both its ends, which nobody has used.
#[derive(Drop)]
pub struct NewDeque<T: Continuation> {
    pub(crate) worker: Worker<Entry<T>, Global, Knowledge, PlacesInOrder>,
}

impl<T: Continuation> Model for NewDeque<T> {
    ghost use Rattle.crossbeam_deque.specs.Handles.{worker_deque};
    ghost use Rattle.stealing_deques.specs.Identity.{Identity, IsUnused};

    ghost Value = { Identity };

    ghost view = { λ d. worker_deque d.worker };

    ghost invariant = { λ d. IsUnused d.worker };
}

impl<T: Continuation> NewDeque<T> {
    /// An empty deque with room for so many entries at first.
    pub fn new(alloc: Global, capacity: usize) -> Result<NewDeque<T>, AllocError> {
        let worker = Worker::lifo_as(alloc, capacity)?;
        Ok(NewDeque { worker })
    }
}

/// So many empty deques, each with room for so many entries at first.
pub fn new_deques<T: Continuation>(
    alloc: Global,
    count: usize,
    capacity: usize,
) -> Result<Vec<NewDeque<T>>, AllocError>
    ensures count { IfOk result (λ r. length r.items ≡ count) }
{
    let mut deques = Vec::new(alloc);
    for _ in 0..count {
        deques.push(NewDeque::new(alloc, capacity)?)?;
    }
    Ok(deques)
}
