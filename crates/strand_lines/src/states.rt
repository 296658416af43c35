//! What the states of strands say.
ghost use Rattle.std.specs.Prelude.{◌≡◌};
ghost use Rattle.meaning.specs.Strands.{holds_by, is_held};
ghost use Rattle.numbered_runs.specs.Named.{named_state};
ghost use Rattle.strand_lines.specs.Lines.{is_last};

use numbered_runs::step::State;

/// Whether a worker holds a strand of that state.
pub fn is_held(state: State) -> bool
    ensures held { result ≡ is_held (named_state state) }
{
    match state {
        State::Held(_) => true,
        State::Ended | State::Stalled | State::Faulted | State::Finished => false,
    }
}

/// Whether that worker holds a strand of that state.
pub fn is_held_by(state: State, worker: usize) -> bool
    ensures held { result ≡ holds_by worker (named_state state) }
{
    match state {
        State::Held(holder) => worker == holder,
        State::Ended | State::Stalled | State::Faulted | State::Finished => false,
    }
}

/// Whether a strand laid down so is a run's last.
pub fn is_last(state: State) -> bool
    ensures last { result ≡ is_last (named_state state) }
{
    match state {
        State::Finished | State::Faulted => true,
        _ => false,
    }
}
