//! Names among others.
ghost use Rattle.std.specs.Prelude.{◌≡◌, map, not, string_bytes};
ghost use Rattle.linked_program.specs.TableNames.{columned, has_name};

use linked_program::tables::TableNames;

/// Whether a name is among these.
pub fn has_name(names: &[String], name: &str) -> bool
    ensures { result ≡ has_name (map string_bytes names.now) name.now }
{
    for other in names {
        if other.as_str() == name {
            return true;
        }
    }
    false
}

/// Whether a table has no column of that name.
pub fn lacks_column(table: &TableNames, column: &str) -> bool
    ensures { result ≡ not (has_name (columned table.now).columns column.now) }
{
    !has_name(&table.columns, column)
}
