// What a replay goes by.
ghost use Rattle.record_theory.specs.InStep.{IsInStep};

use input_tables::Tables;
use linked_program::checked::Checked;
use rerun_records::records::Records;
use std::alloc::Global;

/// The program, the tables and the records as a run begins.
#[derive(Clone, Copy)]
pub(crate) struct Setting<'a> {
    pub alloc: Global,
    pub checked: &'a Checked,
    pub tables: &'a Tables,
    pub records: &'a Records,
    ghost in_step: { IsInStep tables.now.tables records.now },
}
