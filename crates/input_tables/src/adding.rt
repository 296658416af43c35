// Whether a table may be added to others: by the rules that a document's tables keep.

ghost use Rattle.std.specs.Prelude.{◌≡◌, OnOk, IfErr, None, [], map};
ghost use Rattle.input_tables.specs.Adding.{column_refusal, own_refusal, refusal, IsAddCause};

use crate::document::MOST_TABLES;
use crate::names::is_name;
use crate::refusal::AddError;
use crate::table::{Table, find};
use table_parts::bounds::is_column_count;
use table_parts::found::index_of;

/// Refuses a table of this name and these columns behind these tables, if it may not stand there.
pub(crate) fn check(tables: &[Table], name: &str, columns: &[&str]) -> Result<(), AddError>
    ensures allowed { OnOk result (refusal tables.now name.now (map (λ c. c.now) columns.now) ≡ None) }
    ensures refused { IfErr result (IsAddCause (refusal tables.now name.now (map (λ c. c.now) columns.now))) }
{
    if tables.len() >= MOST_TABLES {
        return Err(AddError::TooManyTables);
    }
    if find(tables, name).is_some() {
        return Err(AddError::TableTwice);
    }
    check_own(name, columns)
}

// Refuses a table by its own name and columns.
fn check_own(name: &str, columns: &[&str]) -> Result<(), AddError>
    ensures allowed { OnOk result (own_refusal name.now (map (λ c. c.now) columns.now) ≡ None) }
    ensures refused { IfErr result (IsAddCause (own_refusal name.now (map (λ c. c.now) columns.now))) }
{
    if !is_name(name) {
        return Err(AddError::TableName);
    }
    if !is_column_count(columns.len()) {
        return Err(AddError::ColumnCount);
    }
    check_columns(columns)
}

// Refuses the first column that is no name, or that stands already.
fn check_columns(columns: &[&str]) -> Result<(), AddError>
    ensures allowed { OnOk result (column_refusal [] (map (λ c. c.now) columns.now) ≡ None) }
    ensures refused { IfErr result (IsAddCause (column_refusal [] (map (λ c. c.now) columns.now))) }
{
    for (place, column) in columns.iter().enumerate() {
        if !is_name(column) {
            return Err(AddError::ColumnName);
        }
        if index_of(&columns[..place], column) < place {
            return Err(AddError::ColumnTwice);
        }
    }
    Ok(())
}
