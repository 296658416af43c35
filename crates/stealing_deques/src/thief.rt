//! The thieves' end of a deque.
ghost use Rattle.std.specs.Prelude.{◌≡◌, IfSome, IfNone};
ghost use Rattle.stealing_deques.specs.Order.{spot};
ghost use Rattle.stealing_deques.specs.Steps.{WasStolen};

use crate::continuation::Continuation;
use crate::deques::Deques;
use crate::entry::{Entry, Knowledge};
use crate::rule::{PlacesInOrder, Stolen};
use crossbeam_deque::{Pass, Stealer};
use std::alloc::Global;
use std::marker::{Model, PhantomData};

/// The thieves' end of the deque of that number: one thief at a time steals at it.
#[derive(Drop)]
pub struct ThiefEnd<T: Continuation, D: Deques> {
    pub(crate) stealer: Stealer<Entry<T>, Global, Knowledge, PlacesInOrder>,
    pub(crate) pass: Pass<Entry<T>, Knowledge>,
    pub(crate) steals: u64,
    pub(crate) number: usize,
    pub(crate) of: PhantomData<D>,
}

impl<T: Continuation, D: Deques> Model for ThiefEnd<T, D> {
    ghost use Rattle.std.specs.Prelude.{◌≡◌, length, true, false, slice_get, Some};
    ghost use Rattle.crossbeam_deque.specs.Handles.{stealer_deque, stealer_flavor, view as known_by, IsPassOf};
    ghost use Rattle.stealing_deques.specs.declared.entry.PlainThief.{PlainThief};

    ghost Value = { PlainThief };

    ghost view = { λ t. record { number = t.number; stolen = (known_by t.pass).stolen } };

    ghost invariant = { λ t. IsPassOf (stealer_deque t.stealer) t.pass × (stealer_flavor t.stealer ≡ 1)
        × ((known_by t.pass).owns ≡ false) × ((known_by t.pass).steals ≡ true)
        × (t.steals ≡ length (known_by t.pass).stolen)
        × (slice_get D.deques t.number ≡ Some (stealer_deque t.stealer)) };
}

impl<T: Continuation, D: Deques> ThiefEnd<T, D> {
    /// Takes the first continuation, which was pushed after all that were stolen before it. That there is none says nothing:
    /// another may be taking the last one.
    pub fn steal(&mut self) -> Option<T>
        ensures stolen { IfSome result (λ t. WasStolen self.old (spot (T.place t) (T.since t))
            (spot (T.bottom t) (T.since t)) self.new) }
        ensures same { IfNone result (self.new ≡ self.old) }
    {
        if self.steals == u64::MAX {
            return None;
        }
        let entry = self.stealer.steal_as::<Stolen>(&mut self.pass).success()?;
        self.steals += 1;
        Some(entry.task)
    }
}
