//! The instances with which strands go on.
ghost use Rattle.std.specs.Prelude.{◌≡◌, ◌-◌, ◌<◌, ◌∷◌, length, reverse, vec_len, vec_capacity};
ghost use Rattle.meaning.specs.Elision.{depth_limit};
ghost use Rattle.evaluation.specs.declared.slot.Slot.TheVariants.{Has};
ghost use Rattle.positions.specs.declared.work.Work.TheVariants.{Block};
ghost use Rattle.positions.specs.declared.phase.Phase.TheVariants.{Entering};
ghost use Rattle.positions.specs.Activations.{bound, made, first_of};

use activations::activation::Activation;
use evaluation::slot::Slot;
use layers::layer::DEEPEST;
use positions::phase::Phase;
use positions::work::{Position, Work};
use std::alloc::Global;

/// How many levels there are below the instance of `main`.
const LEVELS_BELOW_MAIN: u32 = DEEPEST - 1;

/// The instance of `main`, with those slots, at its beginning.
pub fn main_instance(alloc: Global, main: usize, slots: Vec<Slot>) -> Activation
    ensures main { result ≡ made main slots.items (Block (first_of 0)) (depth_limit - 1) }
{
    let work = Work::Block(Position { block: 0, index: 0 });
    Activation::new(main, slots, Vec::new(alloc), work, LEVELS_BELOW_MAIN)
}

/// A spawned child is a call from now on, which is to be entered.
#[inline(always)]
pub fn call(phase: &mut Phase)
    ensures called { phase.new ≡ Entering }
{
    *phase = Phase::Entering;
}

/// At a spawn: takes the instance that has spawned out of those that wait, of which it is the last. The child stays as it is.
#[inline(always)]
pub fn take_parent(waiting: &mut Vec<Activation>, child: &mut Activation) -> Activation
    requires some { 0 < length waiting.old.items }
    ensures taken { reverse waiting.old.items ≡ result ∷ reverse waiting.new.items }
    ensures room { vec_len waiting.new < vec_capacity waiting.new }
    ensures child { child.new ≡ child.old }
{
    let _ = &child;
    match waiting.pop() {
        Some(parent) => parent,
        None => unreachable!(),
    }
}

/// Puts the instance that has spawned back on those that wait below it, where there is room for it.
#[inline(always)]
pub fn put_parent(waiting: &mut Vec<Activation>, parent: Activation)
    requires room { vec_len waiting.old < vec_capacity waiting.old }
    ensures put { reverse waiting.new.items ≡ parent ∷ reverse waiting.old.items }
{
    let _ = waiting.push(parent);
}

/// Gives the value of a spawned child that has returned to the instance that has spawned it.
#[inline(always)]
pub fn receive(parent: &mut Activation, value: i64)
    ensures received { parent.new ≡ bound parent.old.into (Has value) parent.old }
{
    parent.receive(value);
}
