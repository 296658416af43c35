//! Programs as trees and what they mean: definitions over plain values, and the small types that name what they speak of.
#![tactic(auto)]

pub mod tree;

ghost use Rattle.std.specs.Prelude.{◌≡◌};
ghost use Rattle.meaning.specs.Elision.{depth_limit};
ghost use Rattle.meaning.specs.Statements.{most_iterations};
ghost use Rattle.meaning.specs.Trail.{most_halvings};

/// The greatest depth of an instance; `main` is at depth 1.
pub const DEPTH_LIMIT: u32 = 256;

/// The greatest number of iterations of a loop.
pub const MOST_ITERATIONS: u32 = 1_048_576;

/// How many times a loop may be halved.
pub const HALVINGS: u32 = 42;

/// The limits in code are those of the definitions.
pub fn limits()
    ensures depth { DEPTH_LIMIT ≡ depth_limit }
    ensures iterations { MOST_ITERATIONS ≡ most_iterations }
    ensures halved { HALVINGS ≡ most_halvings }
{}

/// What stopped a run.
#[derive(Clone, Copy, Debug, PartialEq, Eq)]
pub enum FaultKind {
    DivideByZero,
    MissingRow,
    RangeTooLong,
    TooDeep,
    BadElement,
}
