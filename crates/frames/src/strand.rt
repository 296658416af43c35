//! A strand: a stack of instances, run by small steps, with the layers of its reducers' views.
ghost use Rattle.std.specs.Prelude.{◌≡◌, All};
ghost use Rattle.positions.specs.Strands.{IsLayered};
ghost use Rattle.record_theory.specs.Named.{HaveValues};

use positions::phase::Phase;
use small_steps::machine::Machine;
use std::marker::Model;
use view_pool::View;

/// A strand: where it begins, its layers, its topmost instance with its whole name and those that wait below it, what the
/// topmost does next, and what was counted and recorded of memo instances. At a spawn the child stands on top already.
#[derive(Drop)]
pub struct Strand<V: View = Box<dyn View>> {
    pub(crate) machine: Machine<V>,
}

impl<V: View> Model for Strand<V> {
    ghost use Rattle.positions.specs.Strands.{PlainStrand};
    ghost use Rattle.small_steps.specs.Steps.{IsWhole};

    ghost Value = { PlainStrand };

    ghost view = { λ s. s.machine };

    ghost invariant = { λ s. IsWhole s.machine };
}

impl<V: View> Strand<V> {
    /// What the topmost instance does next.
    pub fn phase(&self) -> Phase
        ensures phase { result ≡ self.now.phase }
    {
        self.machine.phase
    }

    /// What the type keeps: one layer more than there are open memo instances, as long as there is no fault; all layers of the
    /// topmost one's kinds; and records whose values are of these kinds.
    pub fn layered(&self)
        ensures layered { IsLayered self.now }
        ensures kinds { All (λ l. l.kinds ≡ self.now.layer.kinds) self.now.lower }
        ensures made { HaveValues self.now.layer.kinds self.now.tally.made }
    {
        let _ = &self.machine;
    }
}
