//! What is read of tables.

ghost use Rattle.std.specs.Prelude.{◌≡◌, ℕ, ◌+◌, ◌<◌, ◌≤◌, map, length, string_bytes, slice_get, option_map};
ghost use Rattle.meaning.specs.Tables.{rows_of, columns_of, index_of, row_of, at_column, above_all, amount_in, cell_of, has_row, limit_of, sum_of};
ghost use Rattle.serial_oracle.specs.Listing.{rows_plain, tables_plain};

use crate::tables::{Row, TableRows};

/// The rows of a table, none where there is no such table.
pub(crate) fn rows<'a>(tables: &'a [TableRows], name: &str) -> &'a [Row]
    ensures { rows_plain result.now ≡ rows_of (tables_plain tables.now) name.now }
{
    for table in tables {
        if table.name.as_str() == name {
            return &table.rows;
        }
    }
    &[]
}

/// The place of a column in a table.
pub(crate) fn column(tables: &[TableRows], name: &str, wanted: &str) -> usize
    ensures { result ≡ index_of (columns_of (tables_plain tables.now) name.now) wanted.now }
{
    for table in tables {
        if table.name.as_str() == name {
            return place(&table.columns, wanted);
        }
    }
    0
}

fn place(columns: &[String], wanted: &str) -> usize
    ensures { result ≡ index_of (map string_bytes columns.now) wanted.now }
{
    for (i, c) in columns.iter().enumerate() {
        if c.as_str() == wanted {
            return i;
        }
    }
    columns.len()
}

/// The row of a number.
pub(crate) fn row_values(rows: &[Row], number: i64) -> Option<&Vec<i64>>
    ensures { option_map (λ v. v.now.items) result ≡ row_of (rows_plain rows.now) number }
{
    for row in rows {
        if row.number == number {
            return Some(&row.values);
        }
    }
    None
}

/// A cell.
pub(crate) fn cell(tables: &[TableRows], table: &str, row: i64, wanted: &str) -> Option<i64>
    ensures { result ≡ cell_of (tables_plain tables.now) table.now row wanted.now }
{
    match row_values(rows(tables, table), row) {
        None => None,
        Some(values) => values.get(column(tables, table, wanted)).copied(),
    }
}

/// Whether there is a row of a number.
pub(crate) fn has(tables: &[TableRows], table: &str, row: i64) -> bool
    ensures { result ≡ has_row (tables_plain tables.now) table.now row }
{
    row_values(rows(tables, table), row).is_some()
}

/// One more than the greatest number of a row, or 0.
pub(crate) fn limit(tables: &[TableRows], table: &str) -> i64
    ensures { result ≡ limit_of (tables_plain tables.now) table.now }
{
    let mut above: i64 = 0;
    for row in rows(tables, table) {
        if row.number >= above {
            above = row.number.wrapping_add(1);
        }
    }
    above
}

/// What a row adds to the sum of a column: nothing where it has no such column.
fn amount(values: &[i64], place: usize) -> i64
    ensures { result ≡ amount_in (slice_get values.now place) }
{
    match values.get(place) {
        Some(value) => *value,
        None => 0,
    }
}

/// The sum of a column over all rows, wrapped to 64 bits.
pub(crate) fn sum(tables: &[TableRows], table: &str, wanted: &str) -> i64
    ensures { result ≡ sum_of (tables_plain tables.now) table.now wanted.now }
{
    let place = column(tables, table, wanted);
    let mut total: i64 = 0;
    for row in rows(tables, table) {
        total = total.wrapping_add(amount(&row.values, place));
    }
    total
}
