//! Strands that hold nothing: what a strand has left that was folded, and in which the next stolen one begins.
ghost use Rattle.std.specs.Prelude.{◌≡◌, []};
ghost use Rattle.positions.specs.Tallies.{no_tally};
ghost use Rattle.strand_moves.specs.Bare.{IsBare};

use activations::activation::Activation;
use activations::spares::Spares;
use evaluation::notes::Notes;
use layers::layer::Layer;
use layers::spares::SpareLists;
use layers::tally::Tally;
use positions::phase::Phase;
use positions::start::Start;
use positions::work::Work;
use small_steps::machine::Machine;
use std::alloc::Global;
use std::mem;
use view_pool::{Kit, View};

/// An instance that does nothing. It takes no memory.
fn no_instance(alloc: Global) -> Activation {
    Activation::new(0, Vec::new(alloc), Vec::new(alloc), Work::Over, 0)
}

/// A layer of no reducers. It takes no memory.
fn no_layer<V: View>(alloc: Global) -> Layer<V> {
    let kit = Kit::new(Vec::new(alloc));
    Layer::in_lists(
        alloc,
        kit,
        false,
        0,
        Notes::new(alloc),
        Vec::new(alloc),
        Vec::new(alloc),
    )
}

/// A strand that holds nothing. It takes no memory.
pub fn bare<V: View>(alloc: Global) -> Machine<V>
    ensures bare { IsBare result }
{
    Machine {
        start: Start::Root,
        layer: no_layer(alloc),
        lower: Vec::new(alloc),
        path: Vec::new(alloc),
        place: Vec::new(alloc),
        top: no_instance(alloc),
        below: Vec::new(alloc),
        phase: Phase::Entering,
        arguments: Vec::new(alloc),
        tally: Tally::new(alloc),
        numbers: Vec::new(alloc),
        spares: Spares::new(alloc),
        lists: SpareLists::new(alloc),
    }
}

/// Takes the kit of a strand with one layer that has nothing counted, and leaves a strand that holds nothing, with its lists. This strand
/// takes those of its topmost instance. It takes no memory.
#[inline(always)]
pub fn lay_bare<V: View>(machine: &mut Machine<V>, over: &mut Machine<V>) -> Kit<V>
    requires one_layer { over.old.lower ≡ [] }
    requires uncounted { over.old.tally ≡ no_tally }
    ensures same { machine.new ≡ machine.old }
    ensures kit { result ≡ over.old.layer.kinds }
    ensures bare { IsBare over.new }
{
    let alloc = *over.path.allocator();
    over.phase = Phase::Entering;
    over.arguments.clear();
    // The list of its name is for that of the child that the next strand there spawns.
    mem::swap(&mut over.path, &mut over.place);
    let top = mem::replace(&mut over.top, no_instance(alloc));
    let below = mem::replace(&mut over.below, Vec::new(alloc));
    machine.spares.keep_child(top, below, Vec::new(alloc));
    let layer = mem::replace(&mut over.layer, no_layer(alloc));
    layer.close_in(&mut over.lists)
}
