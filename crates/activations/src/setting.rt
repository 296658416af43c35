//! What a step reads.
ghost use Rattle.record_theory.specs.InStep.{IsInStep};

use input_tables::Tables;
use linked_program::checked::Checked;
use rerun_records::records::Records;

/// A checked program, its tables and the records that may answer its memo instances, lent for a step. The tables hold each
/// reading of a record whose number is 0.
#[derive(Clone, Copy)]
pub struct Setting<'a> {
    pub program: &'a Checked,
    pub tables: &'a Tables,
    pub records: &'a Records,
    ghost in_step: { IsInStep tables.now.tables records.now },
}
