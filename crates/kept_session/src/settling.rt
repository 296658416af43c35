// A run's new records among those of a session.
ghost use Rattle.std.specs.Prelude.{◌≡◌, List, All, map, OnOk, OnErr};
ghost use Rattle.monoid_laws.specs.declared.Kind.{Kind as PlainKind};
ghost use Rattle.monoid_laws.specs.Kinds.{IsMonoid};
ghost use Rattle.record_theory.specs.Record.{as_made};
ghost use Rattle.record_theory.specs.Commits.{put_records};
ghost use Rattle.record_theory.specs.InStep.{ReadNow};
ghost use Rattle.record_theory.specs.Named.{HaveValues, CommitsNamed};
ghost use Rattle.record_index.specs.Indexed.{IsIndexed, EnteredNow};

use input_tables::Tables;
use instance_records::record::Record;
use linked_program::checked::Checked;
use record_index::indexed::IndexedRecords;
use std::alloc::AllocError;

/// Puts records in, and then makes blocks of those in a row, if they are to be made at once. Where memory is refused nothing has
/// changed.
pub(crate) fn keep(
    records: &mut IndexedRecords,
    made: Vec<Record>,
    tables: &Tables,
    program: &Checked,
    at_once: bool,
) -> Result<(), AllocError>
    requires indexed { IsIndexed program.now.revisions tables.now.tables records.old }
    requires read_now { ReadNow tables.now.tables made.items }
    requires entered_now { EnteredNow program.now.revisions made.items }
    requires monoids { All IsMonoid program.now.kinds }
    requires values { HaveValues program.now.kinds records.old.records }
    requires made_values { HaveValues program.now.kinds made.items }
    ensures committed { OnOk result
        (map as_made records.new.records ≡ put_records (map as_made records.old.records) made.items) }
    ensures indexed { OnOk result (IsIndexed program.now.revisions tables.now.tables records.new) }
    ensures named { OnOk result (CommitsNamed program.now records.old.records made.items records.new.records) }
    ensures values { OnOk result ((kinds : List PlainKind) → HaveValues kinds records.old.records
        → HaveValues kinds made.items → HaveValues kinds records.new.records) }
    ensures same { OnErr result (records.new ≡ records.old) }
{
    let alloc = *made.allocator();
    records.commit(made, tables, program)?;
    if !at_once {
        return Ok(());
    }
    records.gather(alloc, program);
    Ok(())
}
