//! Continuations in deques.
use right_strands::run::Run;
use right_strands::task::RightTask;
use stealing_deques::Continuation;

/// A continuation in a deque, which waits for its child. It lies in a box, since a deque moves what it has several times.
#[derive(Drop)]
pub struct Waiting<J: Run> {
    pub task: Box<RightTask<J>>,
}

impl<J: Run + Send> Continuation for Waiting<J> {
    ghost use Rattle.worker_seats.specs.Spots.{bottom_of, numbers_of};

    ghost place = { λ w. w.task.value.task.place };

    ghost bottom = { λ w. bottom_of w.task.value.task };

    ghost since = { λ w. numbers_of w.task.value.since };
}
