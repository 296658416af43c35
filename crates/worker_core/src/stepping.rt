// A step by workers that there are.
ghost use Rattle.std.specs.Prelude.{◌≡◌, All, IfErr, OnOk, Ok};
ghost use Rattle.monoid_laws.specs.Kinds.{IsMonoid};
ghost use Rattle.record_theory.specs.Named.{HaveValues};
ghost use Rattle.activations.specs.Given.{lent};
ghost use Rattle.numbered_runs.specs.Named.{run_step};
ghost use Rattle.stepped_runs.specs.Runs.{stepped};
ghost use Rattle.stepped_runs.specs.Layered.{HasOneLayer};
ghost use Rattle.worker_core.specs.Moves.{RefusedAs};
ghost use Rattle.worker_core.specs.Strands.{run_of, kits_in, AreFit};
ghost use Rattle.worker_core.specs.Cores.{takes_memory, StandsAfter};

use crate::piece::Move;
use crate::strands::Strands;
use activations::setting::Setting;
use numbered_runs::refusal::Refusal;
use numbered_runs::step::Step;
use std::alloc::Global;
use view_pool::View;

impl<V: View> Strands<V> {
    /// Takes a step by workers that there are, or refuses it. A refusal changes nothing, but where memory is refused: for a fold
    /// some reducers may have moved between the two strands, whose product is the same, and for a small step the topmost layers
    /// of the strand may have other values.
    pub(crate) fn take(
        &mut self,
        alloc: Global,
        setting: Setting<'_>,
        step: &Step,
    ) -> Result<(), Refusal>
        requires values { HaveValues setting.program.now.kinds setting.records.now }
        requires fit { AreFit setting.program.now.kinds self.old }
        requires layered { All HasOneLayer self.old.pieces }
        requires monoids { All IsMonoid setting.program.now.kinds }
        ensures taken { OnOk result (stepped (lent setting.entry) (run_of self.old) (run_step step.now) ≡ Ok (run_of self.new)) }
        ensures refused { IfErr result (RefusedAs (takes_memory step.now) (stepped (lent setting.entry) (run_of self.old) (run_step step.now))) }
        ensures stands { IfErr result (λ e. StandsAfter step.now e self.old self.new) }
        ensures fit { AreFit setting.entry.program.now.kinds self.new }
        ensures total { self.new.total ≡ self.old.total }
        ensures kits { kits_in self.new ≡ kits_in self.old }
    {
        match step {
            Step::Work(worker) => self.go(alloc, setting, Move::Work, *worker),
            Step::Push(worker) => self.go(alloc, setting, Move::Push, *worker),
            Step::Inline(worker) => self.go(alloc, setting, Move::Inline, *worker),
            Step::Pop(worker) => self.go(alloc, setting, Move::Pop, *worker),
            Step::Stall(worker) => self.stall(alloc, setting.program, *worker),
            Step::Steal(thief, victim) => self.steal(alloc, setting.program, *thief, *victim),
            Step::Fold(worker, place) => self.fold(alloc, setting.program, *worker, place),
        }
    }
}
