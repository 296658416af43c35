//! Gates that count, and some that hold a worker until another has pushed or stolen.

use super::meeting::reaches;
use std::sync::atomic::{AtomicBool, AtomicI64, AtomicUsize, Ordering};
use threaded_driver::{Gate, Point};

/// How often workers came to an update.
#[derive(Drop)]
pub struct Updates {
    count: AtomicUsize,
}

impl Updates {
    /// None so far.
    pub fn new() -> Updates {
        Updates {
            count: AtomicUsize::new(0),
        }
    }

    /// How many there were since it was asked last.
    pub fn taken(&self) -> usize {
        self.count.swap(0, Ordering::SeqCst)
    }
}

impl Gate for Updates {
    fn at(&self, _worker: usize, point: Point) {
        if point == Point::Update {
            self.count.fetch_add(1, Ordering::SeqCst);
        }
    }
}

/// How many continuations the deques hold, and held at most.
#[derive(Drop)]
pub struct Held {
    now: AtomicI64,
    most: AtomicI64,
}

impl Held {
    /// None so far.
    pub fn new() -> Held {
        Held {
            now: AtomicI64::new(0),
            most: AtomicI64::new(0),
        }
    }

    /// The most that were held at once, where one worker pushes.
    pub fn most(&self) -> i64 {
        self.most.load(Ordering::SeqCst)
    }
}

impl Gate for Held {
    fn at(&self, _worker: usize, point: Point) {
        match point {
            Point::Pushed => {
                let now = self.now.fetch_add(1, Ordering::SeqCst).wrapping_add(1);
                if now > self.most.load(Ordering::SeqCst) {
                    self.most.store(now, Ordering::SeqCst);
                }
            }
            Point::Popped | Point::Stole => {
                self.now.fetch_sub(1, Ordering::SeqCst);
            }
            Point::Laid | Point::Folded | Point::Update => {}
        }
    }
}

/// Holds the first worker at its first push until the second one has stolen, and that one at its steal, where it has the lock, until
/// the first one has pushed once more.
#[derive(Drop)]
pub struct PushBesideSteal {
    pushes: AtomicUsize,
    steals: AtomicUsize,
    in_vain: AtomicBool,
}

impl PushBesideSteal {
    /// Nothing was pushed or stolen so far.
    pub fn new() -> PushBesideSteal {
        PushBesideSteal {
            pushes: AtomicUsize::new(0),
            steals: AtomicUsize::new(0),
            in_vain: AtomicBool::new(false),
        }
    }

    /// Whether both came to where the other waited for them.
    pub fn have_met(&self) -> bool {
        self.steals.load(Ordering::SeqCst) > 0
            && self.pushes.load(Ordering::SeqCst) > 1
            && !self.in_vain.load(Ordering::SeqCst)
    }

    /// Waits until the count is so great.
    fn wait(&self, count: &AtomicUsize, wanted: usize) {
        if !reaches(count, wanted) {
            self.in_vain.store(true, Ordering::SeqCst);
        }
    }
}

impl Gate for PushBesideSteal {
    fn at(&self, worker: usize, point: Point) {
        match point {
            Point::Pushed => {
                if worker == 0 && self.pushes.fetch_add(1, Ordering::SeqCst) == 0 {
                    self.wait(&self.steals, 1);
                }
            }
            Point::Stole => {
                if worker == 1 {
                    self.steals.fetch_add(1, Ordering::SeqCst);
                    self.wait(&self.pushes, 2);
                }
            }
            Point::Popped | Point::Laid | Point::Folded | Point::Update => {}
        }
    }
}
