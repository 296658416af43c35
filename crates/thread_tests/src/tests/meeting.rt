//! Workers that wait for one another.

use std::alloc::{AllocError, Global};
use std::sync::atomic::{AtomicBool, AtomicUsize, Ordering};
use std::thread;
use threaded_driver::{Gate, Point};

/// How often one that waits looks whether it may go on, at most.
const TURNS: u32 = 10_000_000;

/// Waits until the count is so great; whether it came to be.
pub fn reaches(count: &AtomicUsize, wanted: usize) -> bool {
    for _ in 0..TURNS {
        if count.load(Ordering::SeqCst) >= wanted {
            return true;
        }
        thread::yield_now();
    }
    false
}

/// Holds each worker that comes to an update until so many workers have come to one.
#[derive(Drop)]
pub struct Meeting {
    is_here: Vec<AtomicBool>,
    wanted: usize,
    came: AtomicUsize,
    in_vain: AtomicBool,
}

impl Meeting {
    /// A meeting of so many of the workers with the numbers below 16.
    pub fn of(alloc: Global, wanted: usize) -> Result<Meeting, AllocError> {
        let mut is_here = Vec::new(alloc);
        for _ in 0..16 {
            is_here.push(AtomicBool::new(false))?;
        }
        Ok(Meeting {
            is_here,
            wanted,
            came: AtomicUsize::new(0),
            in_vain: AtomicBool::new(false),
        })
    }

    /// Whether all came, and none has waited in vain.
    pub fn was_held(&self) -> bool {
        self.came.load(Ordering::SeqCst) >= self.wanted && !self.in_vain.load(Ordering::SeqCst)
    }

    /// Notes that a worker is here, if it wasn't before.
    fn note(&self, worker: usize) {
        match self.is_here.get(worker) {
            None => {}
            Some(flag) => {
                if !flag.swap(true, Ordering::SeqCst) {
                    self.came.fetch_add(1, Ordering::SeqCst);
                }
            }
        }
    }

    /// Waits until all are here; once one has waited in vain, nobody waits any more.
    fn wait(&self) {
        if self.in_vain.load(Ordering::SeqCst) {
            return;
        }
        if !reaches(&self.came, self.wanted) {
            self.in_vain.store(true, Ordering::SeqCst);
        }
    }
}

impl Gate for Meeting {
    fn at(&self, worker: usize, point: Point) {
        if point == Point::Update {
            self.note(worker);
            self.wait();
        }
    }
}
