//! Lists that a strand works with and that hold nothing of it.
ghost use Rattle.std.specs.Prelude.{◌≡◌};

use crate::machine::Machine;
use activations::activation::Activation;
use activations::spares::Spares;
use layers::spares::SpareLists;
use std::alloc::Global;
use std::mem;
use view_pool::View;

/// Lists that hold nothing of a strand: for numbers in between, for a name and for instances that wait, and what instances and layers that are
/// over have left. A run's first strand begins with those that the run before has left.
#[derive(Drop)]
pub struct WorkLists {
    numbers: Vec<i64>,
    pub path: Vec<usize>,
    pub below: Vec<Activation>,
    spares: Spares,
    lists: SpareLists,
}

impl WorkLists {
    /// None yet.
    pub fn new(alloc: Global) -> WorkLists {
        WorkLists {
            numbers: Vec::new(alloc),
            path: Vec::new(alloc),
            below: Vec::new(alloc),
            spares: Spares::new(alloc),
            lists: SpareLists::new(alloc),
        }
    }

    /// The strand goes on with these lists, but for those for a name and for instances that wait, and leaves its own here. It takes no memory.
    pub fn exchange<V: View>(&mut self, machine: &mut Machine<V>)
        ensures same { machine.new ≡ machine.old }
    {
        mem::swap(&mut self.numbers, &mut machine.numbers);
        mem::swap(&mut self.spares, &mut machine.spares);
        mem::swap(&mut self.lists, &mut machine.lists);
    }
}
