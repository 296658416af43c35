//! Which run strands are of: a type parameter stands for it.
ghost use Rattle.std.specs.Prelude.{◌≡◌, [], All};
ghost use Rattle.monoid_laws.specs.Kinds.{IsMonoid};
ghost use Rattle.trail_theory.specs.OpenLayers.{IsNumbered};
ghost use Rattle.strand_theory.specs.Ready.{IsReady};
ghost use Rattle.linked_program.specs.Checked.{revised_of};
ghost use Rattle.linked_program.specs.TableNames.{columned_of};
ghost use Rattle.record_theory.specs.InStep.{IsInStep};
ghost use Rattle.record_theory.specs.Named.{HaveValues};
ghost use Rattle.positions.specs.Setting.{setting_with};
ghost use Rattle.meaning.specs.Schedules.{recording_from};
ghost use Rattle.numbered_runs.specs.News.{AreSound};
ghost use Rattle.right_strands.specs.Remembering.{Remembers};

use input_tables::Tables;
use linked_program::checked::Checked;
use numbered_runs::ready::are_ready;
use rerun_records::records::Records;
use std::marker::{Brand, Model, PhantomData};

/// In how many stretches, evenly spread, records are looked at to see whether many are stale, and how many in each.
const STRETCHES: usize = 32;

const LENGTH: usize = 16;

/// Which program runs on which tables, with which records. Each call of a program picks it.
pub trait Run {
    ghost use Rattle.positions.specs.Setting.{Setting};

    ghost setting: { Setting };
}

impl Run for Brand {
    ghost use Rattle.right_strands.specs.Picked.{unpicked};

    ghost setting = { unpicked };
}

/// The program, the tables and the records of the run. Contracts see nothing of it but that they are J's.
#[derive(Drop)]
pub struct Scene<'a, J: Run> {
    pub(crate) program: &'a Checked,
    pub(crate) tables: &'a Tables,
    pub(crate) records: &'a Records,
    pub(crate) of: PhantomData<J>,
}

impl<'a, J: Run> Model for Scene<'a, J> {
    ghost use Rattle.std.specs.Prelude.{ℕ};
    ghost use Rattle.right_strands.specs.Picked.{IsSet};

    ghost Value = { ℕ };

    ghost view = { λ s. 0 };

    ghost invariant = { λ s. IsSet J.setting s.program.now s.tables.now s.records.now };
}

impl<'a, J: Run> Scene<'a, J> {
    /// What the type keeps.
    pub fn upheld(&self)
        ensures sound { Remembers J.setting }
        ensures ready { (k : Remembers J.setting)
            → IsReady J.setting.program J.setting.tables (recording_from k.kept) }
        ensures numbered { IsNumbered J.setting.program }
        ensures monoids { All IsMonoid J.setting.kinds }
    {
        let _ = &self.program;
    }

    /// The scene of the run J. Its records stand for sound ones by name; whichever these are, strands are right for them.
    pub fn new(program: &'a Checked, tables: &'a Tables, records: &'a Records) -> Scene<'a, J>
        requires same { setting_with program.now tables.now.tables [] records.now ≡ J.setting }
        requires names { program.now.tables ≡ columned_of tables.now.tables }
        requires sound { AreSound (revised_of program.now) program.now.tables program.now.kinds
            records.now }
        requires values { HaveValues program.now.kinds records.now }
        requires in_step { IsInStep tables.now.tables records.now }
    {
        are_ready(program, tables);
        Scene {
            program,
            tables,
            records,
            of: PhantomData,
        }
    }

    /// Whether edits seem to have made many records stale, without a look at them. Nothing rests on it.
    pub fn has_many_due(&self) -> bool {
        self.records.are_many_due()
    }

    /// Whether many records seem to be stale, by a look at some. Nothing rests on it.
    #[inline(never)]
    pub fn seems_stale(&self) -> bool {
        let step = self.records.len() / STRETCHES;
        step >= 2 * LENGTH && are_two_stale(self.records, step)
    }
}

/// Whether two of the stretches have a stale record, which begin so far behind each other.
fn are_two_stale(records: &Records, step: usize) -> bool {
    let mut from = step / 2;
    let mut is_second = false;
    for _ in 0..STRETCHES {
        if is_stale(records, from) {
            if is_second {
                return true;
            }
            is_second = true;
        }
        from = from.saturating_add(step);
    }
    false
}

/// Whether a record of the stretch from that place on is stale.
fn is_stale(records: &Records, from: usize) -> bool {
    for more in 0..LENGTH {
        if !records.is_fresh(from.saturating_add(more)) {
            return true;
        }
    }
    false
}
