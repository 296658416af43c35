//! How a worker takes the lock.
use crate::desk::Desk;
use crate::floor::Floor;
use right_strands::run::Run;
use std::sync::ledger::Ledger;
use std::sync::{MutexGuard, Wait};
use std::thread;
use stealing_deques::Deques;
use view_pool::View;
use worker_seats::kits::Stocked;
use worker_seats::locking::locked;

/// How often a worker tries to take the lock that can do without, about as long as a steal or a fold lasts under it.
const TRIES: u32 = 4;

impl<J: Run + Ledger + Stocked + Send, D: Deques, V: View> Floor<'_, J, D, V> {
    /// The desk, under its lock.
    pub(crate) fn at_desk<R: Wait>(&self, rt: &R) -> MutexGuard<'_, Desk<J, D, V>> {
        locked(rt, &self.desk)
    }

    /// The desk, under its lock, unless others have that.
    pub(crate) fn at_free_desk(&self) -> Option<MutexGuard<'_, Desk<J, D, V>>> {
        for _ in 0..TRIES {
            if let Some(desk) = self.desk.try_lock() {
                return Some(desk);
            }
            thread::yield_now();
        }
        None
    }
}
