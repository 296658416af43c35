//! Why a history or a step of the list of strands is refused.
use thiserror::Error;

/// Why a history has no list.
#[derive(Clone, Copy, Debug, PartialEq, Eq, Error)]
pub enum ReplayError {
    /// The step of that number, from 0, isn't allowed in the list that the ones before leave.
    #[error("step {0} is not allowed")]
    BadStep(usize),
    /// A growth was refused.
    #[error("out of memory")]
    NoMemory,
}

/// Why a step was refused.
#[derive(Clone, Copy, Debug, PartialEq, Eq, Error)]
pub enum BookError {
    /// A growth was refused.
    #[error("out of memory")]
    NoMemory,
    /// The right strand isn't directly behind the left one, or both may not be one strand.
    #[error("refused E10")]
    NotNeighbour,
    /// The strand of that place was laid down already.
    #[error("refused E11")]
    AlreadyLaid,
    /// No strand begins at that place.
    #[error("refused E12")]
    NoStrand,
    /// The list doesn't allow the step.
    #[error("refused E16")]
    NotThere,
}
