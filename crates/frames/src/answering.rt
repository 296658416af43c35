// Iterations of a loop over a memo procedure that records answer, in one go.
ghost use Rattle.std.specs.Prelude.{◌≡◌, List, All, OnOk};
ghost use Rattle.monoid_laws.specs.Kinds.{IsMonoid};
ghost use Rattle.meaning.specs.Records.{Kept};
ghost use Rattle.record_theory.specs.InStep.{IsInStep};
ghost use Rattle.record_theory.specs.Named.{AreKept, HaveValues};
ghost use Rattle.positions.specs.Setting.{HasItsTables, setting_with};
ghost use Rattle.activations.specs.Given.{setting_over};
ghost use Rattle.answered_loops.specs.Ways.{IsWay, IsWayOf};

use crate::strand::Strand;
use activations::setting::Setting;
use input_tables::Tables;
use linked_program::checked::Checked;
use loop_answers::answering::answer_ahead;
use positions::work::Work;
use rerun_records::records::Records;
use running_ahead::ready::records_halves;
use small_steps::machine::Machine;
use std::alloc::{AllocError, Global};
use view_pool::View;

impl<V: View> Strand<V> {
    /// Where the topmost instance is a loop's over a memo procedure, has records answer iterations: all those of a half that is halved
    /// again, where they can, else the first ones, and it goes down to the next; or the first ones of those that are left one by one. At a
    /// spawn it has a record answer the child. It is said whether a spawned child is called, for the halves that aren't answered, and whether a
    /// half of few iterations that aren't all answered is left as it is where they may be done in one go. Where memory is refused the strand
    /// can't go on.
    #[inline(always)]
    pub fn answer_ahead(
        &mut self,
        alloc: Global,
        program: &Checked,
        tables: &Tables,
        records: &Records,
        calls: bool,
        leaves: bool,
    ) -> Result<(), AllocError>
        requires kinds { self.old.layer.kinds ≡ program.now.kinds }
        requires monoids { All IsMonoid program.now.kinds }
        requires values { HaveValues program.now.kinds records.now }
        requires in_step { IsInStep tables.now.tables records.now }
        ensures way { OnOk result (IsWay (setting_over program.now tables.now records.now) self.old self.new) }
        ensures steps { OnOk result ((kept : List Kept) → AreKept program.now kept records.now
            → HasItsTables (setting_with program.now tables.now.tables kept records.now)
            → IsWayOf (setting_with program.now tables.now.tables kept records.now) self.old self.new) }
        ensures lower { self.new.lower ≡ self.old.lower }
        ensures kinds { self.new.layer.kinds ≡ self.old.layer.kinds }
    {
        // What the program's type keeps: so the way by its codes is one by its tree.
        program.linked();
        program.revised();
        let setting = Setting {
            program,
            tables,
            records,
        };
        let leaves = leaves && leaves_halves(&self.machine, setting);
        answer_ahead(&mut self.machine, alloc, setting, calls, leaves)
    }

    /// Whether the topmost instance has a half of a loop left that was halved so often, or goes over to such a second half: with that a
    /// continuation goes on that was popped or stolen. Nothing is claimed of it.
    #[inline(always)]
    pub fn is_parted(&self, often: u32) -> bool {
        match self.machine.top.work() {
            Work::Halves(_, halvings, _) | Work::Second(_, halvings, _) => {
                halvings.saturating_add(often) <= meaning::HALVINGS
            }
            _ => false,
        }
    }
}

/// Whether halves of few iterations that aren't all answered may be left as they are: they may be done in one go.
#[inline(always)]
fn leaves_halves<V: View>(machine: &Machine<V>, setting: Setting<'_>) -> bool {
    if setting.records.is_empty() {
        return false;
    }
    records_halves(machine, setting.program)
}
