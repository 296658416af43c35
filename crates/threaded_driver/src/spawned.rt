//! What becomes of spawned children within small steps that are done in one go.
use running_ahead::spawning::Spawning;
use std::cell::Cell;

/// How often a strand is told that they are called before its worker looks at its deque again: thieves may have taken what that held.
const MANY: u32 = 16;

/// How often it is still told so. It asks before a stretch of statements, which may have one spawn or none.
#[derive(Drop)]
pub(crate) struct Spawned {
    left: Cell<u32>,
}

impl Spawned {
    /// None, or some where the deque holds enough.
    pub(crate) fn new(holds_enough: bool) -> Spawned {
        let left = if holds_enough { MANY } else { 0 };
        Spawned {
            left: Cell::new(left),
        }
    }

    /// Whether they are called, as things stand. To ask for this alone isn't counted.
    pub(crate) fn calls(&self) -> bool {
        self.left.get() > 0
    }
}

impl Spawning for Spawned {
    fn is_called(&mut self) -> bool {
        let left = self.left.get();
        self.left.set(left.saturating_sub(1));
        left > 0
    }
}
