// Why a record doesn't answer an instance.
ghost use Rattle.std.specs.Prelude.{◌≡◌, IfOk, Some, option_copied};
ghost use Rattle.std.specs.List.{find};
ghost use Rattle.evaluation.specs.declared.note.Note.TheVariants as note;
ghost use Rattle.record_theory.specs.Record.{is_of};
ghost use Rattle.record_theory.specs.Validity.{has_revision};
ghost use Rattle.rerun_reasons.specs.Reasons.{change_of, cell_change, first_change, first_defined, reason_by, reason_for};

use crate::reason::Reason;
use crate::replay::Executed;
use crate::setting::Setting;
use evaluation::note::Note;
use input_tables::Tables;
use instance_records::record::Record;
use linked_program::checked::Checked;
use std::alloc::AllocError;

/// Why no record answers an instance, where none does. Its record is looked for among all: this is asked for few instances.
pub(crate) fn reason_of(setting: Setting<'_>, executed: &Executed) -> Result<Reason, AllocError>
    ensures reason { IfOk result (λ reason.
        reason ≡ reason_for setting.entry.checked.now.revisions setting.entry.tables.now.tables
        setting.entry.records.now executed.now.procedure executed.now.arguments.items) }
{
    let records = setting.records.as_slice();
    match record_of(records, executed.procedure, &executed.arguments) {
        Some(record) => stale_by(setting, record),
        None => Ok(Reason::NoRecord),
    }
}

// The record of a procedure and arguments, whether it is valid or not.
fn record_of<'a>(records: &'a [Record], procedure: usize, arguments: &[i64]) -> Option<&'a Record>
    ensures found { option_copied result ≡ find (is_of procedure arguments.now) records.now }
{
    for record in records {
        if procedure == record.procedure() && *arguments == *record.arguments() {
            return Some(record);
        }
    }
    None
}

// Why a record isn't valid: where nothing that it rests on is another now, the depth is what is left.
fn stale_by(setting: Setting<'_>, record: &Record) -> Result<Reason, AllocError>
    ensures reason { IfOk result (λ reason. reason
        ≡ reason_by setting.entry.checked.now.revisions setting.entry.tables.now.tables (Some record.now)) }
{
    if let Some(reason) = first_defined(record.entered(), setting.checked) {
        return Ok(reason);
    }
    match changed(setting, record)? {
        Some(reason) => Ok(reason),
        None => Ok(Reason::TooDeep),
    }
}

// The first of these procedures that is another now.
fn first_defined(entered: &[(usize, u64)], checked: &Checked) -> Option<Reason>
    ensures defined { result ≡ first_defined checked.now.revisions entered.now }
{
    for entry in entered {
        if !is_current(entry.0, entry.1, checked) {
            return Some(Reason::Defined(entry.0));
        }
    }
    None
}

// Whether a procedure has that revision number.
fn is_current(procedure: usize, revision: u64, checked: &Checked) -> bool
    ensures current { result ≡ has_revision checked.now.revisions (procedure, revision) }
{
    match checked.revision_at(procedure) {
        Some(now) => now == revision,
        None => false,
    }
}

// The first reading of a record that the tables don't hold. The readings are copied only where there is one.
fn changed(setting: Setting<'_>, record: &Record) -> Result<Option<Reason>, AllocError>
    ensures changed { IfOk result (λ change.
        change ≡ first_change setting.entry.tables.now.tables record.now.reads) }
{
    if record.reads().agree(setting.tables) {
        return Ok(None);
    }
    let notes = record.reads().notes(setting.alloc)?;
    Ok(first_change(&notes, setting.tables))
}

// How the first of these readings that is another now is.
fn first_change(notes: &[Note], tables: &Tables) -> Option<Reason>
    ensures changed { result ≡ first_change tables.now.tables notes.now }
{
    for note in notes {
        if let Some(reason) = change_of(note, tables) {
            return Some(reason);
        }
    }
    None
}

// How a reading is another now, if it is.
fn change_of(note: &Note, tables: &Tables) -> Option<Reason>
    ensures change { result ≡ change_of tables.now.tables note.now }
{
    match note {
        Note::Cell {
            table,
            row,
            column,
            value,
        } => cell_change(
            *table,
            *row,
            *column,
            *value,
            tables.cell(*table, *row, *column),
        ),
        Note::Has { table, row, found } => row_change(*table, *row, *found, tables),
        Note::Limit { table, value } => limit_change(*table, *value, tables),
        Note::Sum {
            table,
            column,
            value,
        } => sum_change(*table, *column, *value, tables),
    }
}

// How a cell is another now, by what is there; where nothing is, its row is gone.
fn cell_change(
    table: usize,
    row: i64,
    column: usize,
    was: i64,
    found: Option<i64>,
) -> Option<Reason>
    ensures change { result ≡ cell_change table row column was found }
{
    match found {
        None => Some(Reason::Row {
            table,
            row,
            was: true,
        }),
        Some(found) => {
            if found == was {
                return None;
            }
            Some(Reason::Cell {
                table,
                row,
                column,
                was,
                found,
            })
        }
    }
}

// Whether a row is there or not, where that was otherwise.
fn row_change(table: usize, row: i64, was: bool, tables: &Tables) -> Option<Reason>
    ensures change { result ≡ change_of tables.now.tables (note.Has table row was) }
{
    if tables.has(table, row) == was {
        return None;
    }
    Some(Reason::Row { table, row, was })
}

// The limit of a table, where it was another.
fn limit_change(table: usize, was: i64, tables: &Tables) -> Option<Reason>
    ensures change { result ≡ change_of tables.now.tables (note.Limit table was) }
{
    let found = tables.limit(table);
    if found == was {
        return None;
    }
    Some(Reason::Limit { table, was, found })
}

// The sum of a column, where it was another.
fn sum_change(table: usize, column: usize, was: i64, tables: &Tables) -> Option<Reason>
    ensures change { result ≡ change_of tables.now.tables (note.Sum table column was) }
{
    let found = tables.sum(table, column);
    if found == was {
        return None;
    }
    Some(Reason::Sum {
        table,
        column,
        was,
        found,
    })
}
