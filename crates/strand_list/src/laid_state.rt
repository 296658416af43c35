//! How a strand is laid down.
ghost use Rattle.std.specs.Prelude.{◌≡◌};
ghost use Rattle.numbered_runs.specs.Named.{book_step, named_state};
ghost use Rattle.strand_list.specs.Laying.{laying_step, state_as};

use numbered_runs::step::{BookStep, Place, State};

/// As what a strand is laid down.
#[derive(Clone, Copy, PartialEq, Eq)]
pub enum LaidState {
    Ended,
    Stalled,
    Faulted,
    Finished,
}

/// The state of a strand that was laid down so.
pub fn state_of(state: LaidState) -> State
    ensures state { named_state result ≡ state_as state }
{
    match state {
        LaidState::Ended => State::Ended,
        LaidState::Stalled => State::Stalled,
        LaidState::Faulted => State::Faulted,
        LaidState::Finished => State::Finished,
    }
}

/// What the history notes where the strand of that place is laid down so.
pub fn noted(state: LaidState, place: Place) -> BookStep
    ensures noted { book_step result ≡ laying_step state place.items }
{
    match state {
        LaidState::Ended => BookStep::End(place),
        LaidState::Stalled => BookStep::Stall(place),
        LaidState::Faulted => BookStep::Fault(place),
        LaidState::Finished => BookStep::Finish(place),
    }
}
