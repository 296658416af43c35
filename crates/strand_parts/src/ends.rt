//! What strands end with, and what is asked of one before it goes on or is joined.
ghost use Rattle.std.specs.Prelude.{◌≡◌, ◌&&◌, option_copied, reverse};
ghost use Rattle.activations.specs.Waiting.{none_waits_in, none_waits_below};
ghost use Rattle.positions.specs.Moves.{is_update_there};
ghost use Rattle.strand_parts.specs.Ends.{left_by};

use activations::activation::Activation;
use activations::waiting::{none_waits_below, none_waits_in};
use linked_program::code::{Instruction, Operation};
use positions::phase::Phase;
use positions::start::Start;

/// The value with which `main` has left, where it has: no instance waits below it, and none has entered it.
pub fn left_by(phase: Phase, below: &[Activation], path: &[usize]) -> Option<i64>
    ensures left { result ≡ left_by phase (reverse below.now) path.now }
{
    match phase {
        Phase::Leaving(value) if below.is_empty() && path.is_empty() => Some(value),
        _ => None,
    }
}

/// Whether no name of a strand, given by its topmost instance's name and its instances, would wait for a child that ends after the beginning of
/// its left neighbour, which has ended, if the two were joined.
pub fn leaves_none(
    start: Start,
    left: &[usize],
    name: &[usize],
    top: &Activation,
    below: &[Activation],
) -> bool
    ensures waiting { result ≡ (none_waits_in start left.now name.now top.now && none_waits_below start left.now name.now (reverse below.now)) }
{
    none_waits_in(start, left, name, top) && none_waits_below(start, left, name, below)
}

/// Whether that statement is there, and is an update.
pub fn is_update(instruction: Option<&Instruction>) -> bool
    ensures update { result ≡ is_update_there (option_copied instruction.entry) }
{
    match instruction {
        Some(instruction) => match &instruction.operation {
            Operation::Update(_, _) => true,
            _ => false,
        },
        None => false,
    }
}
