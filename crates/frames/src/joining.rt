// Two strands become one.
ghost use Rattle.std.specs.Prelude.{◌≡◌, ◌⊎◌, [], All, IfOk, IfErr, OnOk, OnErr};
ghost use Rattle.monoid_laws.specs.Kinds.{IsMonoid, operate_all};
ghost use Rattle.positions.specs.Setting.{Setting};
ghost use Rattle.positions.specs.Moves.{joined, FoldsViews};
ghost use Rattle.positions.specs.Simulation.{IsJoined};
ghost use Rattle.positions.specs.Tallies.{no_tally};
ghost use Rattle.strand_moves.specs.Bare.{IsBare};
ghost use Rattle.strand_moves.specs.Joins.{IsDone, with_worths};

use crate::strand::Strand;
use std::alloc::AllocError;
use strand_moves::bare::lay_bare;
use strand_moves::joining;
use view_pool::{Kit, View};

impl<V: View> Strand<V> {
    /// Puts the right neighbour behind this strand, which has ended or has a fault; the left's fault comes first. Gives the kit
    /// of the right one. Where memory is refused the right one is handed back: some reducers may have moved to the left and the
    /// others not, and nothing else has changed.
    pub fn join(&mut self, right: Strand<V>) -> Result<Kit<V>, (AllocError, Strand<V>)>
        requires done { IsDone self.old.phase }
        requires one_layer { right.lower ≡ [] }
        requires kinds { self.old.layer.kinds ≡ right.layer.kinds }
        requires monoids { All IsMonoid self.old.layer.kinds }
        ensures joined { OnOk result (self.new ≡ joined self.old right) }
        ensures definition { (setting : Setting)
            → OnOk result (IsJoined setting self.old right self.new) }
        ensures kit { IfOk result (λ kit. kit ≡ right.layer.kinds) }
        ensures left_kept { OnErr result (self.new ≡ with_worths self.new.layer.worths self.old) }
        ensures right_kept { IfErr result (λ e. e.1 ≡ with_worths e.1.layer.worths right) }
        ensures product { IfErr result (λ e.
            operate_all self.old.layer.kinds self.new.layer.worths e.1.layer.worths
            ≡ operate_all self.old.layer.kinds self.old.layer.worths right.layer.worths) }
        ensures views { IfErr result (λ e.
            FoldsViews self.old.phase right.phase ⊎ ((self.new ≡ self.old) × (e.1 ≡ right))) }
    {
        let Strand { machine } = right;
        match joining::join(&mut self.machine, machine) {
            Ok(kit) => Ok(kit),
            Err((error, machine)) => Err((error, Strand { machine })),
        }
    }

    /// The same, where the right neighbour stays where it lies: joined it holds nothing any more but what `lay_bare` takes.
    pub fn join_there(&mut self, right: &mut Strand<V>) -> Result<(), AllocError>
        requires done { IsDone self.old.phase }
        requires one_layer { right.old.lower ≡ [] }
        requires kinds { self.old.layer.kinds ≡ right.old.layer.kinds }
        requires monoids { All IsMonoid self.old.layer.kinds }
        ensures joined { OnOk result (self.new ≡ joined self.old right.old) }
        ensures kinds { right.new.layer.kinds ≡ right.old.layer.kinds }
        ensures bare { OnOk result (right.new.lower ≡ []) }
        ensures uncounted { OnOk result (right.new.tally ≡ no_tally) }
        ensures left_kept { OnErr result (self.new ≡ with_worths self.new.layer.worths self.old) }
        ensures right_kept { OnErr result (right.new ≡ with_worths right.new.layer.worths right.old) }
        ensures product { OnErr result
            (operate_all self.old.layer.kinds self.new.layer.worths right.new.layer.worths
            ≡ operate_all self.old.layer.kinds self.old.layer.worths right.old.layer.worths) }
    {
        joining::join_there(&mut self.machine, &mut right.machine)
    }

    /// Takes the kit of a strand with one layer that has nothing counted, and leaves one that holds nothing, with its lists. This strand
    /// takes those of its topmost instance. It takes no memory.
    #[inline(always)]
    pub fn lay_bare(&mut self, over: &mut Strand<V>) -> Kit<V>
        requires one_layer { over.old.lower ≡ [] }
        requires uncounted { over.old.tally ≡ no_tally }
        ensures same { self.new ≡ self.old }
        ensures kit { result ≡ over.old.layer.kinds }
        ensures bare { IsBare over.new }
    {
        lay_bare(&mut self.machine, &mut over.machine)
    }

    /// The kit of a strand with one layer that is let go. It takes no memory.
    pub fn close(self) -> Kit<V>
        ensures kit { result ≡ self.layer.kinds }
    {
        let Strand { machine } = self;
        joining::close(machine)
    }
}
