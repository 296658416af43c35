//! The owner's end of a deque.
ghost use Rattle.std.specs.Prelude.{◌≡◌, ◌+◌, ◌≤◌, Some, true, false, IfSome, IfNone, IfErr, OnOk, OnErr};
ghost use Rattle.stealing_deques.specs.Order.{spot, GoesOn, IsBoundTo};
ghost use Rattle.stealing_deques.specs.Steps.{WasPopped, HoldsInOrder, WereTakenOnce};

use crate::continuation::Continuation;
use crate::deques::Deques;
use crate::entry::{Entry, Knowledge};
use crate::rule::{Afresh, Counted, Ends, PlacesInOrder, Popped, Pushed, Seen};
use crate::thief::ThiefEnd;
use crossbeam_deque::Worker;
use std::alloc::Global;
use std::marker::{Model, PhantomData};
use std::mem;

/// The owner's end of the deque of that number, at which it pushes and pops.
#[derive(Drop)]
pub struct OwnerEnd<T: Continuation, D: Deques> {
    pub(crate) worker: Worker<Entry<T>, Global, Knowledge, PlacesInOrder>,
    pub(crate) pushes: u64,
    pub(crate) pops: u64,
    pub(crate) number: usize,
    pub(crate) of: PhantomData<D>,
}

impl<T: Continuation, D: Deques> Model for OwnerEnd<T, D> {
    ghost use Rattle.std.specs.Prelude.{◌≡◌, length, true, false, slice_get, Some};
    ghost use Rattle.crossbeam_deque.specs.Handles.{worker_deque, worker_flavor, worker_view};
    ghost use Rattle.stealing_deques.specs.declared.entry.PlainOwner.{PlainOwner};
    ghost use Rattle.stealing_deques.specs.Order.{owner_of};

    ghost Value = { PlainOwner };

    ghost view = { λ o. owner_of o.number (worker_view o.worker) };

    ghost invariant = { λ o. (worker_flavor o.worker ≡ 1) × ((worker_view o.worker).owns ≡ true)
        × ((worker_view o.worker).steals ≡ false) × (o.pushes ≡ (worker_view o.worker).pushed)
        × (o.pops ≡ length (worker_view o.worker).popped)
        × (slice_get D.deques o.number ≡ Some (worker_deque o.worker)) };
}

impl<T: Continuation, D: Deques> OwnerEnd<T, D> {
    /// The deque's number.
    pub fn number(&self) -> usize
        ensures number { result ≡ self.now.number }
    {
        self.number
    }

    /// Puts a continuation at the back, or hands it back where there is no room.
    pub fn push(&mut self, task: T) -> Result<(), T>
        requires goes_on { GoesOn (T.bottom task) (T.place task) }
        requires bound { IsBoundTo self.old.here (spot (T.bottom task) (T.since task)) }
        ensures pushed { OnOk result (self.new ≡ record self.old {
          pushed = self.old.pushed + 1;
          here = Some (spot (T.place task) (T.since task));
        }) }
        ensures back { IfErr result (λ t. t ≡ task) }
        ensures same { OnErr result (self.new ≡ self.old) }
    {
        if self.pushes == u64::MAX {
            return Err(task);
        }
        let entry = Entry {
            number: self.pushes,
            task,
        };
        match self.worker.push_as::<Pushed>(entry) {
            Ok(()) => {
                self.pushes += 1;
                Ok(())
            }
            Err(entry) => Err(entry.task),
        }
    }

    /// Takes the last continuation: the one that waits for the instance that the owner has come to.
    pub fn pop(&mut self) -> Option<T>
        ensures waits { IfSome result (λ t. self.old.here ≡ Some (spot (T.place t) (T.since t))) }
        ensures popped { IfSome result
            (λ t. WasPopped self.old (spot (T.bottom t) (T.since t)) self.new) }
        ensures same { IfNone result (self.new ≡ self.old) }
    {
        if self.pops == u64::MAX {
            return None;
        }
        let entry = self.worker.pop_as::<Popped>()?;
        self.pops += 1;
        Some(entry.task)
    }

    /// How many continuations the deque holds at one moment. From front to back each place is a longer name that begins with
    /// the place in front of it, and each was pushed after the one in front of it and after all that were stolen; each number
    /// of a push stands once, among what is held, popped or stolen.
    pub fn held_count(&mut self) -> usize
        ensures in_order { HoldsInOrder self.old result }
        ensures same { self.new ≡ self.old }
    {
        self.worker.len_as::<Seen>()
    }

    /// Unbinds the owner from where it has come to, where all that was pushed was taken, as the thieves' end of the same deque counts:
    /// whether it was. Then the owner may go on anywhere, and each number of a push was popped or stolen, once.
    pub fn unbind_if_drained(&mut self, thief: &mut ThiefEnd<T, D>) -> bool
        ensures afresh { result ≡ true → self.new ≡ record self.old { here = None } }
        ensures once { result ≡ true → WereTakenOnce self.old thief.old }
        ensures same { result ≡ false → self.new ≡ self.old }
        ensures thief { thief.new ≡ thief.old }
    {
        if self.number != thief.number
            || self.pops > self.pushes
            || thief.steals != self.pushes - self.pops
        {
            return false;
        }
        let guest = thief.stealer.pass();
        let pass = mem::replace(&mut thief.pass, guest);
        self.worker.absorb::<Ends>(pass);
        self.worker.len_as::<Counted>();
        thief.pass = self.worker.another::<Afresh>();
        true
    }
}
