// Iterations of a loop over a memo procedure in one go, each with its record.
ghost use Rattle.std.specs.Prelude.{◌≡◌, ◌+◌, ◌≤◌, suc, length, List, All, OnOk};
ghost use Rattle.monoid_laws.specs.declared.Kind.{Kind};
ghost use Rattle.monoid_laws.specs.Kinds.{IsMonoid};
ghost use Rattle.meaning.specs.Records.{Kept};
ghost use Rattle.record_theory.specs.InStep.{IsInStep};
ghost use Rattle.record_theory.specs.Named.{AreKept, HaveValues};
ghost use Rattle.positions.specs.Setting.{HasItsTables, setting_with};
ghost use Rattle.activations.specs.Given.{setting_over};
ghost use Rattle.small_steps.specs.Steps.{GivesNone};
ghost use Rattle.running_ahead.specs.Stepped.{AreStepsOf, IsStepped};

use crate::strand::Strand;
use activations::setting::Setting;
use input_tables::Tables;
use linked_program::checked::Checked;
use recording_ahead::recording::record_ahead;
use rerun_records::records::Records;
use running_ahead::spawning::Spawning;
use std::alloc::{AllocError, Global};
use view_pool::{Kit, KitSource, View};

impl<V: View> Strand<V> {
    /// Where a loop over a memo procedure is next: does its next iterations in one go, as far as records answer them or they do all of their
    /// statements by themselves, each of these in a layer of its own that becomes a record; those of a half only where it is small or spawned
    /// children are called. Whether it did anything. A kit is taken for that, and given back. Where memory is refused the strand can't go on.
    #[inline(always)]
    pub fn record_ahead<S: Spawning, K: KitSource<Kit<V>>>(
        &mut self,
        alloc: Global,
        program: &Checked,
        tables: &Tables,
        records: &Records,
        spawning: &mut S,
        kits: &mut K,
    ) -> Result<bool, AllocError>
        requires kinds { self.old.layer.kinds ≡ program.now.kinds }
        requires monoids { All IsMonoid program.now.kinds }
        requires values { HaveValues program.now.kinds records.now }
        requires in_step { IsInStep tables.now.tables records.now }
        requires given_kinds { (k : List Kind) → K.gives k kits.old → k ≡ program.now.kinds }
        requires fits { K.fits program.now.kinds kits.old }
        ensures way { OnOk result (IsStepped (setting_over program.now tables.now records.now) self.old self.new) }
        ensures steps { OnOk result ((kept : List Kept) → AreKept program.now kept records.now
            → HasItsTables (setting_with program.now tables.now.tables kept records.now)
            → AreStepsOf (setting_with program.now tables.now.tables kept records.now) self.old self.new) }
        ensures lower { OnOk result (self.new.lower ≡ self.old.lower) }
        ensures kinds { self.new.layer.kinds ≡ self.old.layer.kinds }
        // No kit is lost, where there is room for all of them.
        ensures kits { suc (length self.old.lower) + K.free kits.old ≤ K.total kits.old
            → length self.new.lower + K.free kits.new ≡ length self.old.lower + K.free kits.old }
        ensures total { K.total kits.new ≡ K.total kits.old }
        ensures fitting { (k : List Kind) → K.fits k kits.old → K.fits k kits.new }
        ensures given_kinds { (k : List Kind) → K.gives k kits.new → k ≡ program.now.kinds }
        ensures without_kit { GivesNone K.gives kits.old → self.new ≡ self.old }
    {
        // What the program's type keeps: so the steps by its codes are those by its tree.
        program.linked();
        program.revised();
        let setting = Setting {
            program,
            tables,
            records,
        };
        record_ahead(&mut self.machine, alloc, setting, spawning, kits)
    }
}
