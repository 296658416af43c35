//! What strands leave that are folded, for those that are stolen.

use crate::body::Body;
use frames::strand::Strand;
use positions::start::Start;
use std::alloc::{AllocError, Global};
use std::marker::Model;
use view_pool::View;

/// A box in which a strand has lain, with the lists that it worked with, or a new one. It holds nothing of a strand.
#[derive(Drop)]
pub struct Spare<V: View> {
    pub(crate) body: Box<Body<V>>,
}

impl<V: View> Model for Spare<V> {
    ghost use Rattle.std.specs.Prelude.{ℕ};
    ghost use Rattle.strand_moves.specs.Bare.{IsBare};

    ghost Value = { ℕ };

    ghost view = { λ s. 0 };

    ghost invariant = { λ s. IsBare s.body.value.strand };
}

/// Spare boxes. Contracts see nothing of them.
#[derive(Drop)]
pub struct Spares<V: View> {
    spares: Vec<Spare<V>>,
}

impl<V: View> Spares<V> {
    /// None yet.
    pub fn new(alloc: Global) -> Spares<V> {
        Spares {
            spares: Vec::new(alloc),
        }
    }

    /// One that was kept, or a new one. Want of memory is the only error.
    #[inline(always)]
    pub fn take(&mut self, alloc: Global) -> Result<Spare<V>, AllocError> {
        match self.spares.pop() {
            Some(spare) => Ok(spare),
            None => Spare::new(alloc),
        }
    }

    /// One that was kept, if there is one.
    pub fn pop(&mut self) -> Option<Spare<V>> {
        self.spares.pop()
    }

    /// Keeps one. Where memory is refused for that it is let go.
    pub(crate) fn keep(&mut self, spare: Spare<V>) {
        let _ = self.spares.push(spare);
    }
}

impl<V: View> Spare<V> {
    /// A new one. Want of memory is the only error.
    fn new(alloc: Global) -> Result<Spare<V>, AllocError> {
        match Body::boxed(alloc, Strand::bare(alloc), Start::Root) {
            Ok(body) => Ok(Spare { body }),
            Err((error, _)) => Err(error),
        }
    }
}
