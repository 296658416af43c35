//! Continuations that are right for a run.
ghost use Rattle.std.specs.Prelude.{◌≡◌};
ghost use Rattle.right_strands.specs.Rightness.{IsRightTask};

use crate::run::Run;
use positions::start::Start;
use std::marker::{Model, PhantomData};
use strand_moves::task::Task;

/// A continuation that is right for the run J, and where the strand that pushed it began.
#[derive(Drop)]
pub struct RightTask<J: Run> {
    pub(crate) task: Task,
    pub(crate) since: Start,
    pub(crate) of: PhantomData<J>,
}

impl<J: Run> Model for RightTask<J> {
    ghost use Rattle.right_strands.specs.Rightness.{Pushed, IsRightTask};

    ghost Value = { Pushed };

    ghost view = { λ t. record { task = t.task; since = t.since } };

    ghost invariant = { λ t. IsRightTask J.setting (record { task = t.task; since = t.since }) };
}

impl<J: Run> RightTask<J> {
    /// The name of the spawned child, behind which the continuation goes on.
    pub fn place(&self) -> &[usize]
        ensures place { result.now ≡ self.now.task.place }
    {
        self.task.place()
    }

    /// Where the strand that pushed it began.
    pub fn since(&self) -> Start
        ensures since { result ≡ self.now.since }
    {
        self.since
    }

    /// What the type keeps.
    pub fn upheld(&self)
        ensures right { IsRightTask J.setting self.now }
    {
        let _ = &self.since;
    }
}
