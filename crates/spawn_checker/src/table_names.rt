//! The names of tables and of their columns.
ghost use Rattle.std.specs.Prelude.{◌≡◌, map, string_bytes, IfOk};
ghost use Rattle.linked_program.specs.TableNames.{columned, columned_of};

use input_tables::Tables;
use linked_program::tables::TableNames;
use std::alloc::{AllocError, Global};

// Copies of these names.
fn copies(alloc: Global, names: &[String]) -> Result<Vec<String>, AllocError>
    ensures { IfOk result (λ made. map string_bytes made.items ≡ map string_bytes names.now) }
{
    let mut made = Vec::new(alloc);
    made.reserve(names.len())?;
    for name in names {
        made.push(String::from_str(alloc, name.as_str())?)?;
    }
    Ok(made)
}

/// The names of these tables and of their columns, in the tables' order.
pub(crate) fn table_names(alloc: Global, tables: &Tables) -> Result<Vec<TableNames>, AllocError>
    ensures { IfOk result (λ made. map columned made.items ≡ columned_of tables.now.tables) }
{
    let mut made = Vec::new(alloc);
    made.reserve(tables.count())?;
    for number in 0..tables.count() {
        let name = String::from_str(alloc, tables.name(number))?;
        let columns = copies(alloc, tables.columns(number))?;
        made.push(TableNames { name, columns })?;
    }
    Ok(made)
}
