// The tables of a document, or the first faulty one.

ghost use Rattle.std.specs.Prelude.{◌≡◌, IfOk, IfErr, Some, Ok, Err, [], List, Result, ℕ, string_bytes, option_map, slice_get};
ghost use Rattle.meaning.specs.Tree.{Name};
ghost use Rattle.toml.specs.View.{view, table_view};
ghost use Rattle.meaning.specs.Tables.{Listed, Tables as TableModel};
ghost use Rattle.input_tables.specs.Shapes.{table_in};
ghost use Rattle.input_tables.specs.Document.{reading_of, tables_from, unless_faulty, IsCause, HasCauseIn, NamesTable, Refusal, named};

use crate::refusal::{Fault, TablesError};
use crate::table::{Table, table_in};
use std::alloc::Global;
use toml::{Table as Document, Value};

/// How many tables there may be.
pub const MOST_TABLES: usize = 64;

/// The tables of a document in byte order of their names; refused at the 65th, else at the first faulty one, or for want of
/// memory.
pub(crate) fn tables_in(alloc: Global, document: &Document) -> Result<Vec<Table>, TablesError>
    ensures read { IfOk result (λ tables. reading_of (table_view document.now) ≡ Ok tables.items) }
    ensures refused { IfErr result (HasCauseIn (table_view document.now)) }
{
    match document.keys().nth(MOST_TABLES) {
        Some(name) => Err(shape_error(alloc, name.as_str())),
        None => tables_from(alloc, document),
    }
}

// The tables of a document, whatever their number.
fn tables_from(alloc: Global, document: &Document) -> Result<Vec<Table>, TablesError>
    ensures read { IfOk result (λ tables. tables_from [] (named document.now.entries) ≡ Ok tables.items) }
    ensures refused { IfErr result (IsCause (tables_from [] (named document.now.entries))) }
{
    let mut tables = Vec::with_capacity(alloc, document.len())?;
    for (name, value) in document {
        match table_at(alloc, name.as_str(), value) {
            Ok(table) => tables.push(table)?,
            Err(error) => return Err(error),
        }
    }
    Ok(tables)
}

// The table of a key, or the refusal that names it.
fn table_at(alloc: Global, name: &str, value: &Value) -> Result<Table, TablesError>
    ensures read { IfOk result (λ table. table_in name.now (view value.now) ≡ Some table) }
    ensures refused { (goes_on : Listed → Result TableModel Refusal)
        → IfErr result (IsCause (unless_faulty name.now (table_in name.now (view value.now)) goes_on)) }
{
    match table_in(alloc, name, value) {
        Ok(table) => Ok(table),
        Err(Fault::Shape) => Err(shape_error(alloc, name)),
        Err(Fault::NoMemory) => Err(TablesError::NoMemory),
    }
}

// The refusal that names a table.
fn shape_error(alloc: Global, table: &str) -> TablesError
    ensures { NamesTable table.now result }
{
    match String::from_str(alloc, table) {
        Ok(table) => TablesError::Shape { table },
        Err(_) => TablesError::NoMemory,
    }
}
