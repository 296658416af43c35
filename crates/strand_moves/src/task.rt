//! A continuation: the instances taken out of a strand at a spawn.
ghost use Rattle.std.specs.Prelude.{◌≡◌};

use activations::activation::Activation;
use std::marker::Model;

/// A continuation: the name of the spawned child, the instance at the spawn, and those that wait below it. It has room for one
/// more, so that putting it back takes no memory.
#[derive(Drop)]
pub struct Task {
    pub place: Vec<usize>,
    pub top: Activation,
    pub below: Vec<Activation>,
}

impl Model for Task {
    ghost use Rattle.std.specs.Prelude.{reverse, vec_len, vec_capacity, ◌<◌};
    ghost use Rattle.positions.specs.Strands.{PlainTask};

    ghost Value = { PlainTask };

    ghost view = { λ t. record { place = t.place.items; top = t.top; below = reverse t.below.items } };

    ghost invariant = { λ t. vec_len t.below < vec_capacity t.below };
}

impl Task {
    /// The name of the spawned child, behind which the continuation goes on.
    pub fn place(&self) -> &[usize]
        ensures place { result.now ≡ self.now.place }
    {
        &self.place
    }
}
