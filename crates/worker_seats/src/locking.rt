//! How a worker takes a lock.
use std::hint::spin_loop;
use std::sync::{Mutex, MutexGuard, Wait};

/// How often a worker tries to take the lock before it sleeps for it, and how often it pauses between two times: in all some 20 microseconds.
/// The lock is held for less, while a worker that sleeps is woken only after as long, by the one that gives the lock up.
const TRIES: u32 = 40;

const PAUSES: u32 = 8;

/// What stands under that lock.
pub fn locked<'b, T, R: Wait>(rt: &R, lock: &'b Mutex<T>) -> MutexGuard<'b, T> {
    for _ in 0..TRIES {
        if let Some(guard) = lock.try_lock() {
            return guard;
        }
        for _ in 0..PAUSES {
            spin_loop();
        }
    }
    lock.lock(rt)
}
