//! The steps of a run, the states of its strands, and what its history notes.

/// The place of a strand: the name of the child behind which it begins, as the numbers of the instances from `main` to it. That
/// of the first strand is empty.
pub type Place = Vec<usize>;

/// A step of a run, by a worker.
#[derive(Drop)]
pub enum Step {
    Work(usize),
    Push(usize),
    Inline(usize),
    Pop(usize),
    Stall(usize),
    /// The thief, and its victim.
    Steal(usize, usize),
    /// The worker, and the place of the right strand.
    Fold(usize, Place),
}

/// Who holds a strand, or as what it was laid down.
#[derive(Clone, Copy, Debug)]
pub enum State {
    Held(usize),
    Ended,
    Stalled,
    Faulted,
    Finished,
}

/// What changed the list of strands.
#[derive(Drop)]
pub enum BookStep {
    /// The victim's place, the new strand's place, and the thief.
    Split(Place, Place, usize),
    End(Place),
    Stall(Place),
    Fault(Place),
    Finish(Place),
    /// The left place, the right place, and the worker.
    Fold(Place, Place, usize),
}

/// A strand in the list: its place, and its state.
#[derive(Drop)]
pub struct StrandLine {
    pub place: Place,
    pub state: State,
}
