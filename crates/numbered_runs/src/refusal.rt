//! Why a step isn't taken, and why a run isn't begun.
use thiserror::Error;

/// Why a step was not taken.
#[derive(Clone, Copy, Debug, Error)]
pub enum Refusal {
    /// A growth was refused.
    #[error("out of memory")]
    NoMemory,
    /// The worker holds a strand.
    #[error("refused E13")]
    Busy,
    /// There is no continuation to take.
    #[error("refused E14")]
    Nothing,
    /// No kit is free.
    #[error("refused E15")]
    NoKit,
    /// There is no such worker, its strand isn't at such a point, or the run has failed.
    #[error("refused E16")]
    NotThere,
}

/// Why a run was not begun.
#[derive(Clone, Copy, Debug, Error)]
pub enum StartError {
    /// A growth was refused.
    #[error("out of memory")]
    NoMemory,
    /// No kit is free.
    #[error("no kit")]
    NoKit,
}
