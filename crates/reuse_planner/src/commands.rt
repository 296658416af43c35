// Commands of a session, and their answers.
use kept_session::ApplyError;
use session_edits::Edit;
use worker_core::{RunAnswer, Step};

/// A command of a session.
#[derive(Drop)]
pub enum Command<'a> {
    Edit(Edit<'a>),
    /// A run by so many workers that take these steps.
    Run { workers: usize, steps: Vec<Step> },
}

/// The answer to a command.
#[derive(Drop)]
pub enum Answer {
    Edit(Result<(), ApplyError>),
    Run(RunAnswer),
}
