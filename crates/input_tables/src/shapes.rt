// The columns and rows of a table in a document.

ghost use Rattle.std.specs.Prelude.{◌≡◌, [], true, IfOk, IfErr, IfSome, Some, map, string_bytes, option_map, ◌++◌, ◌∷◌, OnOk, length};
ghost use Rattle.toml.specs.View.{view, items_view, array_view, table_view};
ghost use Rattle.meaning.specs.Edits.{in_range};
ghost use Rattle.input_tables.specs.Shapes.{new_column, columns_from, columns_in, integers_from, number_in, values_in, row_in, row_at};
ghost use Rattle.input_tables.specs.Shapes.{with_row, rows_from, array_at, where_some};
ghost use Rattle.input_tables.specs.Faults.{IsFaulty};
ghost use Rattle.input_tables.specs.Rows.{AreWide};
ghost use Rattle.input_tables.specs.Sums.{AreTotals};
ghost use Rattle.toml.specs.Data.{as_str, as_array};

use crate::names::is_name;
use crate::refusal::Fault;
use crate::rows::Rows;
use std::alloc::Global;
use table_parts::bounds::{is_column_count, is_row_number};
use table_parts::found::index_of;
use toml::{Table as Members, Value};

/// The array at a key.
pub(crate) fn array_at<'a>(members: &'a Members, key: &str) -> Option<&'a Vec<Value>>
    ensures { option_map (λ items. array_view items.now) result
        ≡ array_at key.now (table_view members.now) }
{
    match members.get(key) {
        Some(value) => value.as_array(),
        None => None,
    }
}

// A name that isn't yet among the columns.
fn new_column(alloc: Global, columns: &[String], item: &Value) -> Result<String, Fault>
    ensures read { IfOk result (λ column. where_some (as_str (view item.now)) (new_column (map string_bytes columns.now)) ≡ Some (string_bytes column)) }
    ensures refused { IfErr result (IsFaulty (where_some (as_str (view item.now)) (new_column (map string_bytes columns.now)))) }
{
    match item.as_str() {
        Some(name) if is_name(name) && index_of(columns, name) == columns.len() => {
            Ok(String::from_str(alloc, name)?)
        }
        _ => Err(Fault::Shape),
    }
}

/// The 1 to 8 columns that an array names.
pub(crate) fn columns_in(alloc: Global, items: &[Value]) -> Result<Vec<String>, Fault>
    ensures read { IfOk result (λ columns. columns_in (items_view items.now)
        ≡ Some (map string_bytes columns.items)) }
    ensures refused { IfErr result (IsFaulty (columns_in (items_view items.now))) }
{
    if !is_column_count(items.len()) {
        return Err(Fault::Shape);
    }
    columns_from(alloc, items)
}

fn columns_from(alloc: Global, items: &[Value]) -> Result<Vec<String>, Fault>
    ensures read { IfOk result (λ columns. columns_from [] (items_view items.now) ≡ Some (map string_bytes columns.items)) }
    ensures refused { IfErr result (IsFaulty (columns_from [] (items_view items.now))) }
{
    let mut columns = Vec::with_capacity(alloc, items.len())?;
    for item in items {
        let column = new_column(alloc, &columns, item)?;
        columns.push(column)?;
    }
    Ok(columns)
}

// The number of a row.
fn number_in(item: &Value) -> Option<i64>
    ensures read { result ≡ number_in (view item.now) }
    ensures number { IfSome result (λ number. in_range number ≡ true) }
{
    match item.as_integer() {
        Some(number) if is_row_number(number) => Some(number),
        _ => None,
    }
}

// The integers that an array holds.
fn integers_in(numbers: &mut Vec<i64>, items: &[Value]) -> Result<(), Fault>
    ensures read { OnOk result (integers_from [] (items_view items.now) ≡ Some numbers.new.items) }
    ensures many { OnOk result (length numbers.new.items ≡ length items.now) }
    ensures refused { IfErr result (IsFaulty (integers_from [] (items_view items.now))) }
{
    numbers.clear();
    for item in items {
        match item.as_integer() {
            Some(number) => numbers.push(number)?,
            None => return Err(Fault::Shape),
        }
    }
    Ok(())
}

// One value for each of so many columns, in the list that is handed in: all rows of a table are read through one list.
fn values_in(values: &mut Vec<i64>, items: &[Value], columns: usize) -> Result<(), Fault>
    ensures read { OnOk result (values_in columns (items_view items.now) ≡ Some values.new.items) }
    ensures wide { OnOk result (length values.new.items ≡ columns) }
    ensures refused { IfErr result (IsFaulty (values_in columns (items_view items.now))) }
{
    if items.len() != columns {
        return Err(Fault::Shape);
    }
    integers_in(values, items)
}

// The number of a row, and its values in the list that is handed in.
fn row_in(values: &mut Vec<i64>, items: &[Value], columns: usize) -> Result<i64, Fault>
    ensures read { IfOk result (λ number. row_in columns (items_view items.now) ≡ Some (number, values.new.items)) }
    ensures number { IfOk result (λ number. in_range number ≡ true) }
    ensures wide { OnOk result (length values.new.items ≡ columns) }
    ensures refused { IfErr result (IsFaulty (row_in columns (items_view items.now))) }
{
    match items.split_first() {
        Some((first, rest)) => match number_in(first) {
            Some(number) => {
                values_in(values, rest, columns)?;
                Ok(number)
            }
            None => Err(Fault::Shape),
        },
        None => Err(Fault::Shape),
    }
}

// The row that an item of a table's rows is.
fn row_at(values: &mut Vec<i64>, item: &Value, columns: usize) -> Result<i64, Fault>
    ensures read { IfOk result (λ number. row_at columns (view item.now) ≡ Some (number, values.new.items)) }
    ensures number { IfOk result (λ number. in_range number ≡ true) }
    ensures wide { OnOk result (length values.new.items ≡ columns) }
    ensures refused { IfErr result (IsFaulty (row_at columns (view item.now))) }
{
    match item.as_array() {
        Some(items) => row_in(values, items, columns),
        None => Err(Fault::Shape),
    }
}

// One more row, whose number is new.
fn add_row(rows: &mut Rows, sums: &mut Vec<i64>, number: i64, values: &[i64]) -> Result<(), Fault>
    requires range { in_range number ≡ true }
    requires wide { AreWide (length values.now) rows.old }
    requires sums { length sums.old.items ≡ length values.now }
    requires totals { AreTotals sums.old.items rows.old }
    ensures read { OnOk result (with_row rows.old (number, values.now) ≡ Some rows.new) }
    ensures wide { OnOk result (AreWide (length values.now) rows.new) }
    ensures sums { OnOk result (length sums.new.items ≡ length values.now) }
    ensures totals { OnOk result (AreTotals sums.new.items rows.new) }
    ensures refused { IfErr result (IsFaulty (with_row rows.old (number, values.now))) }
{
    if rows.put(number, values, sums)? {
        return Err(Fault::Shape);
    }
    Ok(())
}

// One more row out of an item of a table's rows.
fn add_item(
    rows: &mut Rows,
    sums: &mut Vec<i64>,
    values: &mut Vec<i64>,
    item: &Value,
    columns: usize,
) -> Result<(), Fault>
    requires wide { AreWide columns rows.old }
    requires sums { length sums.old.items ≡ columns }
    requires totals { AreTotals sums.old.items rows.old }
    ensures read { OnOk result (where_some (row_at columns (view item.now)) (with_row rows.old) ≡ Some rows.new) }
    ensures wide { OnOk result (AreWide columns rows.new) }
    ensures sums { OnOk result (length sums.new.items ≡ columns) }
    ensures totals { OnOk result (AreTotals sums.new.items rows.new) }
    ensures refused { IfErr result (IsFaulty (where_some (row_at columns (view item.now)) (with_row rows.old))) }
{
    let number = row_at(values, item, columns)?;
    add_row(rows, sums, number, values)
}

/// The rows that an array holds, each with so many values. The totals of so many columns, all 0, become theirs.
pub(crate) fn rows_in(
    alloc: Global,
    items: &[Value],
    columns: usize,
    sums: &mut Vec<i64>,
) -> Result<Rows, Fault>
    requires sums { length sums.old.items ≡ columns }
    requires zeros { AreTotals sums.old.items [] }
    ensures read { IfOk result (λ rows. rows_from columns [] (items_view items.now) ≡ Some rows) }
    ensures wide { IfOk result (λ rows. AreWide columns rows) }
    ensures sums { OnOk result (length sums.new.items ≡ columns) }
    ensures totals { IfOk result (λ rows. AreTotals sums.new.items rows) }
    ensures refused { IfErr result (IsFaulty (rows_from columns [] (items_view items.now))) }
{
    let mut rows = Rows::new(alloc);
    let mut values = Vec::with_capacity(alloc, columns)?;
    for item in items {
        add_item(&mut rows, sums, &mut values, item, columns)?;
    }
    Ok(rows)
}
