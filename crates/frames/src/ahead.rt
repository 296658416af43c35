// Many small steps in one go.
ghost use Rattle.std.specs.Prelude.{◌≡◌, List};
ghost use Rattle.meaning.specs.Records.{Kept};
ghost use Rattle.record_theory.specs.InStep.{IsInStep};
ghost use Rattle.record_theory.specs.Named.{AreKept};
ghost use Rattle.positions.specs.Setting.{HasItsTables, setting_with};
ghost use Rattle.activations.specs.Given.{setting_over};
ghost use Rattle.answered_loops.specs.Ways.{IsWay, IsWayOf};

use crate::strand::Strand;
use activations::setting::Setting;
use input_tables::Tables;
use linked_program::checked::Checked;
use rerun_records::records::Records;
use running_ahead::ahead::run_ahead;
use running_ahead::spawning::Spawning;
use std::alloc::Global;
use view_pool::View;

impl<V: View> Strand<V> {
    /// Does small steps, some or none: those of instances that no kit is asked for, as far as they read no reducer, close no layer,
    /// have no fault and take no memory that is refused. A spawned child is called where it is said so, and ends them else. A loop
    /// is halved only where there are no records.
    pub fn run_ahead<S: Spawning>(
        &mut self,
        alloc: Global,
        program: &Checked,
        tables: &Tables,
        records: &Records,
        spawning: &mut S,
    )
        requires kinds { self.old.layer.kinds ≡ program.now.kinds }
        requires in_step { IsInStep tables.now.tables records.now }
        ensures way { IsWay (setting_over program.now tables.now records.now) self.old self.new }
        ensures steps { (kept : List Kept) → AreKept program.now kept records.now
            → HasItsTables (setting_with program.now tables.now.tables kept records.now)
            → IsWayOf (setting_with program.now tables.now.tables kept records.now) self.old self.new }
        ensures lower { self.new.lower ≡ self.old.lower }
        ensures kinds { self.new.layer.kinds ≡ self.old.layer.kinds }
        ensures same { spawning.new ≡ spawning.old }
    {
        // What the program's type keeps: so the way by its codes is one by its tree.
        program.linked();
        program.revised();
        let setting = Setting {
            program,
            tables,
            records,
        };
        run_ahead(&mut self.machine, alloc, setting, spawning);
    }
}
