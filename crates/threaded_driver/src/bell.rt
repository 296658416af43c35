//! What workers without a strand wait by. Nothing rests on it but how soon they find one, and how little they disturb the others.
use std::cell::Cell;
use std::sync::Wait;
use std::sync::atomic::{AtomicBool, AtomicU64, Ordering};
use std::thread;
use std::time::Duration;

/// How often a worker listens for the bell between two looks for a strand.
const LISTENS: u32 = 64;

/// After how many looks in vain a worker naps between them. Before that a nap could take longer than the run.
const PATIENCE: u64 = 32;

/// How often the first worker looks whether the others have left, before it sleeps until they have: in all about as long as it would be woken
/// late.
const PARTINGS: u32 = 128;

/// How often the first worker gives way to the threads that it has started, before they may begin: behind each time one more of those that
/// stay on its processor has come. Where others work a time may be a few milliseconds.
const GATHERINGS: u32 = 4;

/// How many microseconds a thread that has come waits at most until it may begin.
const BEGINNING: u64 = 2000;

/// How many microseconds its first nap takes, and by how many each further one is longer.
const NAP: u64 = 100;

/// How many times as long as the first one a nap is at most.
const LONGEST: u64 = 20;

/// Rings where a worker has pushed a continuation and another listens, and wakes those that nap where the run is over. A nap ends by
/// itself too, so that nobody sleeps for ever.
#[derive(Drop)]
pub(crate) struct Bell {
    listeners: AtomicU64,
    // Whether somebody has begun to listen, or has heard it, since it was rung: else who pushes has nothing to do.
    is_wanted: AtomicBool,
    has_rung: AtomicBool,
    is_over: AtomicU64,
    nappers: AtomicU64,
    // How many threads have come to the run, whether they may begin, and how many have nothing more to do with it.
    come: AtomicU64,
    may_begin: AtomicU64,
    parted: AtomicU64,
}

/// A worker that comes to the bell, whether it listens, and how many looks were in vain since it had a strand.
#[derive(Drop)]
pub(crate) struct Listener<'a> {
    bell: &'a Bell,
    listens: Cell<bool>,
    looks: Cell<u64>,
}

impl Bell {
    /// A bell for which nobody listens.
    pub(crate) fn new() -> Bell {
        Bell {
            listeners: AtomicU64::new(0),
            is_wanted: AtomicBool::new(false),
            has_rung: AtomicBool::new(false),
            is_over: AtomicU64::new(0),
            nappers: AtomicU64::new(0),
            come: AtomicU64::new(0),
            may_begin: AtomicU64::new(0),
            parted: AtomicU64::new(0),
        }
    }

    /// One that doesn't listen yet.
    pub(crate) fn listener(&self) -> Listener<'_> {
        Listener {
            bell: self,
            listens: Cell::new(false),
            looks: Cell::new(0),
        }
    }

    /// Rings for one worker that listens, where it is wanted.
    #[inline(always)]
    pub(crate) fn ring(&self) {
        if self.is_wanted.load(Ordering::SeqCst) {
            self.sound();
        }
    }

    /// Rings. It is kept out of the quick way of who pushes.
    #[inline(never)]
    fn sound(&self) {
        self.is_wanted.store(false, Ordering::SeqCst);
        self.has_rung.store(true, Ordering::SeqCst);
    }

    /// Whether it rings, for the first one that asks; then it is wanted again.
    fn is_heard(&self) -> bool {
        if self.has_rung.load(Ordering::SeqCst) && self.has_rung.swap(false, Ordering::SeqCst) {
            self.is_wanted.store(true, Ordering::SeqCst);
            return true;
        }
        false
    }

    /// Whether somebody listens.
    fn has_listeners(&self) -> bool {
        self.listeners.load(Ordering::SeqCst) > 0
    }

    /// Whether the run is over.
    fn has_ended(&self) -> bool {
        self.is_over.load(Ordering::SeqCst) != 0
    }

    /// The run is over: wakes all that nap. Who is about to nap has counted himself, or finds the run over. Where nobody naps the system
    /// isn't asked.
    pub(crate) fn end(&self) {
        if self.is_over.swap(1, Ordering::SeqCst) == 0 && self.nappers.load(Ordering::SeqCst) != 0 {
            self.is_over.wake_all();
        }
    }

    /// A thread has come to the run: it sleeps until it may begin. The system leaves a new thread on its maker's processor for as long as a
    /// short run takes, but puts one that is woken where nobody works.
    pub(crate) fn come<R: Wait>(&self, rt: &R) {
        self.come.fetch_add(1, Ordering::SeqCst);
        self.may_begin
            .park_timeout(rt, 0, Duration::from_micros(BEGINNING));
    }

    /// Wakes the threads that have come: where there are to be so many, but for those that take long to.
    pub(crate) fn begin(&self, threads: u64) {
        self.gather(threads);
        self.may_begin.store(1, Ordering::SeqCst);
        self.may_begin.wake_all();
    }

    /// Gives way to threads until so many have come, a few times at most.
    fn gather(&self, threads: u64) {
        for _ in 0..GATHERINGS {
            if self.come.load(Ordering::SeqCst) >= threads {
                return;
            }
            thread::yield_now();
        }
    }

    /// A thread has nothing more to do with the run.
    pub(crate) fn part(&self) {
        self.parted.fetch_add(1, Ordering::SeqCst);
    }

    /// Waits until so many threads have nothing more to do with the run, for a short while: who sleeps until the last one has is woken late.
    /// At the end it lets them go their last steps.
    pub(crate) fn await_parted(&self, threads: u64) {
        for _ in 0..PARTINGS {
            let have_parted = self.parted.load(Ordering::SeqCst) >= threads;
            thread::yield_now();
            if have_parted {
                return;
            }
        }
    }
}

impl Listener<'_> {
    /// Listens from then on, unless it does. What rang while nobody listened was found by the look before: that would have it look twice. Where
    /// others listen a ring may be for them.
    pub(crate) fn listen(&self) {
        if self.listens.get() {
            return;
        }
        self.listens.set(true);
        if self.bell.listeners.fetch_add(1, Ordering::SeqCst) == 0 {
            self.bell.has_rung.store(false, Ordering::SeqCst);
        }
        self.bell.is_wanted.store(true, Ordering::SeqCst);
    }

    /// Listens no longer, since it has found a strand. Where that was stolen there may be more, so it rings for another one that listens; where
    /// it was folded there mostly aren't, and who looked would meet it under the lock again, where it lays the strand down soon.
    pub(crate) fn leave(&self, is_stolen: bool) {
        self.looks.set(0);
        self.stop_listening();
        if is_stolen && self.bell.has_listeners() {
            self.bell.sound();
        }
    }

    /// Listens no longer, where it does.
    fn stop_listening(&self) {
        if self.listens.get() {
            self.listens.set(false);
            self.bell.listeners.fetch_sub(1, Ordering::SeqCst);
        }
    }

    /// Waits for the next look after one that was in vain.
    pub(crate) fn wait<R: Wait>(&self, rt: &R) {
        let looks = self.looks.get();
        self.looks.set(looks.saturating_add(1));
        if looks < PATIENCE {
            self.hear();
        } else {
            self.nap(rt, looks - PATIENCE);
        }
    }

    /// Waits for the bell or the run's end, for a short while. Its processor is for others between two times that it listens: with a spin
    /// of its own it would hear later, and each steal would take so much more.
    fn hear(&self) {
        for _ in 0..LISTENS {
            if self.bell.has_ended() || self.bell.is_heard() {
                return;
            }
            thread::yield_now();
        }
    }

    /// Sleeps after so many naps, unless the run is over, and doesn't listen meanwhile.
    fn nap<R: Wait>(&self, rt: &R, naps: u64) {
        let micros = NAP.saturating_mul(naps.saturating_add(1).min(LONGEST));
        self.stop_listening();
        self.bell.nappers.fetch_add(1, Ordering::SeqCst);
        self.bell
            .is_over
            .park_timeout(rt, 0, Duration::from_micros(micros));
        self.bell.nappers.fetch_sub(1, Ordering::SeqCst);
        self.listen();
    }
}
