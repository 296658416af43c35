// The names by which a strand is known among the strands of a run.
ghost use Rattle.std.specs.Prelude.{◌≡◌, ◌<◌, IfOk, length};
ghost use Rattle.meaning.specs.SmallStep.{same_name};
ghost use Rattle.positions.specs.Simulation.{place_of};

use crate::strand::Strand;
use activations::names::is_child;
use positions::phase::Phase;
use positions::start::Start;
use std::alloc::{AllocError, Global};
use view_pool::View;

impl<V: View> Strand<V> {
    /// What the type keeps: at a spawn an instance waits below the child.
    pub fn ready(&self)
        ensures parent { self.now.phase ≡ Phase.AtSpawn → 0 < length self.now.below }
    {
        self.machine.ready();
    }

    /// The whole name of the topmost instance.
    pub fn name(&self) -> &[usize]
        ensures name { result.now ≡ self.now.path }
    {
        &self.machine.path
    }

    /// The name of the child behind which the strand begins; that of the first strand is empty. Want of memory is the only
    /// error.
    #[tactic(auto, using(std::proofs::lemmas::List::take_min))]
    pub fn begins_behind(&self, alloc: Global) -> Result<Vec<usize>, AllocError>
        ensures place { IfOk result (λ place. place.items ≡ place_of self.now.start self.now.path) }
    {
        let mut place = Vec::new(alloc);
        if let Start::Behind { depth, child } = self.machine.start {
            let depth = depth.min(self.machine.path.len());
            place.reserve(depth)?;
            place.extend_from_slice(&self.machine.path[..depth])?;
            place.push(child)?;
        }
        Ok(place)
    }

    /// Whether the strand begins behind the child of that name; the first one does behind the empty name.
    #[tactic(auto, using(std::proofs::lemmas::List::take_min, crate::proofs::Names::root_is))]
    pub fn is_behind(&self, name: &[usize]) -> bool
        ensures behind { result ≡ same_name (place_of self.now.start self.now.path) name.now }
    {
        match self.machine.start {
            Start::Root => name.is_empty(),
            Start::Behind { depth, child } => {
                let depth = depth.min(self.machine.path.len());
                is_child(name, &self.machine.path[..depth], child)
            }
        }
    }
}
