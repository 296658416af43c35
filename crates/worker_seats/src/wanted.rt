//! How many continuations a deque should hold. Nothing rests on it but how soon thieves find one, and what pushes cost.

/// So many a deque holds in any case, where its worker comes to as many spawns.
const LEAST: usize = 2;

/// So many it holds at most.
const MOST: usize = 6;

/// So many pushes beyond the least a worker has at first, and at most.
const MORE: usize = 4;

/// How many continuations a deque held when its worker looked last or changed that, and how many pushes beyond the least it still has. The
/// oldest continuations are the largest pieces of a worker's work: as long as nobody takes one of these, nobody needs more of them, and a call
/// costs less than a push and a pop. So a push of another one is given back only where a thief has taken one: where none does, a tree of
/// calls would push and pop at each of its lower levels anew, and where the deque is short of them, what is pushed next is small.
#[derive(Drop)]
pub(crate) struct Wanted {
    held: usize,
    more: usize,
}

impl Wanted {
    /// Those of a deque that nobody has used.
    pub(crate) fn new() -> Wanted {
        Wanted {
            held: 0,
            more: MORE,
        }
    }

    /// Whether a deque that holds so many holds enough.
    pub(crate) fn is_met(&mut self, held: usize) -> bool {
        let taken = self.held.saturating_sub(held);
        self.more = self.more.saturating_add(taken).min(MORE);
        self.held = held;
        held >= LEAST && (held >= MOST || self.more == 0)
    }

    /// The worker has pushed one.
    pub(crate) fn note_push(&mut self) {
        if self.held >= LEAST {
            self.more = self.more.saturating_sub(1);
        }
        self.held = self.held.saturating_add(1);
    }

    /// The worker has popped one.
    pub(crate) fn note_pop(&mut self) {
        self.held = self.held.saturating_sub(1);
    }
}
