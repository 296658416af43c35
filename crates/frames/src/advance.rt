// One small step of a strand, and the points at which there is none.
ghost use Rattle.std.specs.Prelude.{◌≡◌, ◌+◌, ◌≤◌, suc, length, List, All, OnErr, OnOk, IfOk};
ghost use Rattle.monoid_laws.specs.declared.Kind.{Kind};
ghost use Rattle.monoid_laws.specs.Kinds.{IsMonoid};
ghost use Rattle.meaning.specs.Records.{Kept};
ghost use Rattle.record_theory.specs.Named.{AreKept, HaveValues};
ghost use Rattle.record_theory.specs.InStep.{IsInStep};
ghost use Rattle.positions.specs.Setting.{HasItsTables, setting_with};
ghost use Rattle.positions.specs.Simulation.{IsPause, IsStepTaken};
ghost use Rattle.positions.specs.Advance.{advanced, pause_of};
ghost use Rattle.activations.specs.Given.{setting_over};
ghost use Rattle.small_steps.specs.Steps.{HoldsFor, IsStepOf, IsValued};

use crate::strand::Strand;
use activations::setting::Setting;
use input_tables::Tables;
use linked_program::checked::Checked;
use positions::phase::Paused;
use rerun_records::records::Records;
use std::alloc::{AllocError, Global};
use view_pool::{Kit, KitSource, View};

impl<V: View> Strand<V> {
    /// Does one small step and answers Working, or changes nothing and answers the point at which the strand is. A memo instance
    /// is answered by a valid record, or begins in a layer of its own where a kit is free. Where memory is refused nothing has
    /// changed but the values of the two topmost layers.
    #[inline(always)]
    pub fn advance<K: KitSource<Kit<V>>>(
        &mut self,
        alloc: Global,
        program: &Checked,
        tables: &Tables,
        records: &Records,
        kits: &mut K,
    ) -> Result<Paused, AllocError>
        requires kinds { self.old.layer.kinds ≡ program.now.kinds }
        requires monoids { All IsMonoid program.now.kinds }
        requires values { HaveValues program.now.kinds records.now }
        requires in_step { IsInStep tables.now.tables records.now }
        requires given_kinds { (k : List Kind) → K.gives k kits.old → k ≡ program.now.kinds }
        requires fits { K.fits program.now.kinds kits.old }
        ensures pause { IfOk result (λ paused. paused ≡ pause_of program.now.codes self.old) }
        ensures advanced { OnOk result (HoldsFor K.KitSource kits.old
            (λ kit. self.new ≡ advanced (setting_over program.now tables.now records.now) kit self.old)) }
        ensures small_step { OnOk result (HoldsFor K.KitSource kits.old
            (λ kit. (kept : List Kept) → AreKept program.now kept records.now
            → HasItsTables (setting_with program.now tables.now.tables kept records.now)
            → IsStepOf (setting_with program.now tables.now.tables kept records.now) kit self.old self.new)) }
        ensures no_step { IfOk result (λ paused. (kept : List Kept)
            → IsPause (setting_with program.now tables.now.tables kept records.now) paused self.old) }
        ensures goes_on { IfOk result (λ paused. paused ≡ Paused.Working → (kept : List Kept)
            → IsStepTaken (setting_with program.now tables.now.tables kept records.now) self.old) }
        ensures kinds { self.new.layer.kinds ≡ self.old.layer.kinds }
        // No kit is lost, where there is room for all of them.
        ensures kits { suc (length self.old.lower) + K.free kits.old ≤ K.total kits.old
            → length self.new.lower + K.free kits.new ≡ length self.old.lower + K.free kits.old }
        ensures total { K.total kits.new ≡ K.total kits.old }
        ensures fitting { (k : List Kind) → K.fits k kits.old → K.fits k kits.new }
        ensures given_kinds { (k : List Kind) → K.gives k kits.new → k ≡ program.now.kinds }
        ensures refused { OnErr result (IsValued self.old self.new) }
    {
        // What the program's type keeps: so what its codes do is what its tree says.
        program.linked();
        program.revised();
        let paused = self.machine.pause(program);
        let setting = Setting {
            program,
            tables,
            records,
        };
        self.machine.step_by_phase(alloc, setting, kits)?;
        Ok(paused)
    }

    /// The point at which the strand is, or Working where it can go on.
    pub fn pause(&self, program: &Checked) -> Paused
        ensures pause { result ≡ pause_of program.now.codes self.now }
    {
        self.machine.pause(program)
    }
}
