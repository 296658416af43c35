// One table: its name, its columns and its rows.

ghost use Rattle.std.specs.Prelude.{◌≡◌, ◌<◌, [], pos, IfOk, IfErr, OnOk, OnErr, IfSome, IfNone, Some, map, option_map, length, string_bytes, true};
ghost use Rattle.std.specs.Int.{w64, int_wrap};
ghost use Rattle.toml.specs.View.{view, table_view};
ghost use Rattle.meaning.specs.Tables.{row_of, at_column, is_there, above_all, column_total, index_of};
ghost use Rattle.meaning.specs.Edits.{with_rows, row_put, row_gone, in_range, table_of};
ghost use Rattle.input_tables.specs.Adding.{without_rows};
ghost use Rattle.input_tables.specs.Edited.{names_of, RowsFit};
ghost use Rattle.input_tables.specs.Shapes.{table_in, listed_in, with_rows_of};
ghost use Rattle.input_tables.specs.Faults.{IsFaulty};
ghost use Rattle.input_tables.specs.Rows.{AreWide};
ghost use Rattle.input_tables.specs.Sums.{AreTotals};

use crate::names::is_name;
use crate::refusal::Fault;
use crate::rows::Rows;
use crate::shapes::{array_at, columns_in, rows_in};
use std::alloc::{AllocError, Global};
use std::convert::AsStr;
use std::marker::Model;
use table_parts::found::{index_of, value_in};
use toml::{Table as Members, Value};

/// A table: its name, its columns as declared, its rows, and the total of each column over them.
#[derive(Drop)]
pub struct Table {
    name: String,
    columns: Vec<String>,
    rows: Rows,
    sums: Vec<i64>,
}

impl Model for Table {
    ghost use Rattle.std.specs.Prelude.{◌≡◌, length, map, string_bytes};
    ghost use Rattle.input_tables.specs.Rows.{AreWide};
    ghost use Rattle.input_tables.specs.Sums.{AreTotals};
    ghost use Rattle.meaning.specs.Tables.{Listed};

    ghost Value = { Listed };

    ghost view = { λ t. record { called = string_bytes t.name; columns = map string_bytes t.columns.items; rows = t.rows } };

    ghost invariant = { λ t. AreWide (length t.columns.items) t.rows × (length t.sums.items ≡ length t.columns.items) × AreTotals t.sums.items t.rows };
}

impl AsStr for Table {
    ghost text = { λ t. t.called };

    fn as_str(&self) -> &str {
        self.name.as_str()
    }
}

impl Table {
    /// A table without rows.
    pub(crate) fn without_rows(
        alloc: Global,
        name: &str,
        columns: &[&str],
    ) -> Result<Table, AllocError>
        ensures { IfOk result (λ table. table ≡ without_rows name.now (map (λ c. c.now) columns.now)) }
    {
        let name = String::from_str(alloc, name)?;
        let columns = copies(alloc, columns)?;
        let sums = zeros(alloc, columns.len())?;
        Ok(Table {
            name,
            columns,
            rows: Rows::new(alloc),
            sums,
        })
    }

    /// Lends the table's name.
    pub(crate) fn name(&self) -> &str
        ensures { result.now ≡ self.now.called }
    {
        self.name.as_str()
    }

    /// Lends the columns' names, as declared.
    pub(crate) fn columns(&self) -> &[String]
        ensures { map string_bytes result.now ≡ self.now.columns }
    {
        &self.columns
    }

    /// How many columns the table has.
    pub(crate) fn column_count(&self) -> usize
        ensures { result ≡ length self.now.columns }
    {
        self.columns.len()
    }

    /// The values of the row of this number, where no row before it is missing; there may be such a row where none is found.
    #[inline(always)]
    pub(crate) fn row_at_once(&self, row: i64) -> Option<&[i64]>
        ensures { IfSome result (λ values. row_of self.now.rows row ≡ Some values.now) }
    {
        self.rows.get_at_once(row)
    }

    /// Lends the values of the row of this number.
    pub(crate) fn row(&self, row: i64) -> Option<&[i64]>
        ensures { option_map (λ values. values.now) result ≡ row_of self.now.rows row }
    {
        self.rows.get(row)
    }

    /// How many columns the table has, and so how many values each of its rows.
    pub(crate) fn width(&self) -> usize
        ensures columns { result ≡ length self.now.columns }
        ensures rows { AreWide result self.now.rows }
    {
        self.columns.len()
    }

    /// The value of a row in the column of this number.
    #[inline(always)]
    pub(crate) fn cell(&self, row: i64, column: usize) -> Option<i64>
        ensures { result ≡ at_column (row_of self.now.rows row) column }
    {
        match self.rows.get(row) {
            Some(values) => value_in(values, column),
            None => None,
        }
    }

    /// Whether there is a row of this number.
    pub(crate) fn has(&self, row: i64) -> bool
        ensures { result ≡ is_there (row_of self.now.rows row) }
    {
        self.rows.has(row)
    }

    /// One more than the greatest number of a row, or 0 where there are no rows.
    pub(crate) fn limit(&self) -> i64
        ensures { result ≡ above_all (pos 0) self.now.rows }
    {
        self.rows.limit()
    }

    /// The sum of the column of this number over all rows, wrapped to 64 bits; 0 where there is no such column.
    pub(crate) fn sum(&self, column: usize) -> i64
        ensures { result ≡ int_wrap w64 (column_total column self.now.rows) }
    {
        match self.sums.get(column) {
            Some(sum) => *sum,
            None => 0,
        }
    }

    /// Lends the sums of all columns over all rows, each wrapped to 64 bits.
    pub fn sums(&self) -> &[i64]
        ensures many { length result.now ≡ length self.now.columns }
        ensures totals { AreTotals result.now self.now.rows }
    {
        &self.sums
    }

    /// What the type keeps: each cell is a number of 64 bits.
    pub(crate) fn cells_fit(&self)
        ensures fit { RowsFit self.now.rows }
    {
        self.rows.cells_fit();
    }

    /// Puts a row in the place of the one of its number.
    pub(crate) fn put(&mut self, row: i64, values: &[i64]) -> Result<(), AllocError>
        requires range { in_range row ≡ true }
        requires wide { length values.now ≡ length self.old.columns }
        ensures put { OnOk result (self.new ≡ with_rows self.old
            (row_put row values.now self.old.rows)) }
        ensures same { OnErr result (self.new ≡ self.old) }
    {
        self.rows.put(row, values, &mut self.sums)?;
        Ok(())
    }

    /// Takes the row of this number out.
    pub(crate) fn delete(&mut self, row: i64)
        ensures gone { self.new ≡ with_rows self.old (row_gone row self.old.rows) }
    {
        self.rows.delete(row, &mut self.sums);
    }
}

// The totals of so many columns over no rows.
fn zeros(alloc: Global, columns: usize) -> Result<Vec<i64>, AllocError>
    ensures many { IfOk result (λ sums. length sums.items ≡ columns) }
    ensures zeros { IfOk result (λ sums. AreTotals sums.items []) }
{
    let mut sums = Vec::with_capacity(alloc, columns)?;
    sums.resize(columns, 0)?;
    Ok(sums)
}

// Copies of names.
fn copies(alloc: Global, names: &[&str]) -> Result<Vec<String>, AllocError>
    ensures { IfOk result (λ made. map string_bytes made.items ≡ map (λ n. n.now) names.now) }
{
    let mut made = Vec::with_capacity(alloc, names.len())?;
    for name in names {
        made.push(String::from_str(alloc, name)?)?;
    }
    Ok(made)
}

/// The table of a name, and its place.
pub(crate) fn find<'a>(tables: &'a [Table], name: &str) -> Option<(usize, &'a Table)>
    ensures found { option_map (λ p. p.1.now) result ≡ table_of tables.now name.now }
    ensures number { IfSome result (λ p. p.0 ≡ index_of (names_of tables.now) name.now) }
    ensures within { IfSome result (λ p. p.0 < length tables.now) }
    ensures absent { IfNone result (index_of (names_of tables.now) name.now ≡ length tables.now) }
{
    let number = index_of(tables, name);
    match tables.get(number) {
        Some(table) => Some((number, table)),
        None => None,
    }
}

/// The table of a key and its value in a document; a fault where it isn't of the shape, or for want of memory.
pub(crate) fn table_in(alloc: Global, name: &str, value: &Value) -> Result<Table, Fault>
    ensures read { IfOk result (λ table. table_in name.now (view value.now) ≡ Some table) }
    ensures refused { IfErr result (IsFaulty (table_in name.now (view value.now))) }
{
    if !is_name(name) {
        return Err(Fault::Shape);
    }
    match value.as_table() {
        Some(members) => listed_in(alloc, name, members),
        None => Err(Fault::Shape),
    }
}

fn listed_in(alloc: Global, name: &str, members: &Members) -> Result<Table, Fault>
    ensures read { IfOk result (λ table. listed_in name.now (table_view members.now) ≡ Some table) }
    ensures refused { IfErr result (IsFaulty (listed_in name.now (table_view members.now))) }
{
    if members.len() != 2 {
        return Err(Fault::Shape);
    }
    match array_at(members, "columns") {
        Some(items) => {
            let columns = columns_in(alloc, items)?;
            with_rows_of(alloc, name, members, columns)
        }
        None => Err(Fault::Shape),
    }
}

fn with_rows_of(
    alloc: Global,
    name: &str,
    members: &Members,
    columns: Vec<String>,
) -> Result<Table, Fault>
    ensures read { IfOk result (λ table. with_rows_of name.now (table_view members.now) (map string_bytes columns.items) ≡ Some table) }
    ensures refused { IfErr result (IsFaulty (with_rows_of name.now (table_view members.now) (map string_bytes columns.items))) }
{
    match array_at(members, "rows") {
        Some(items) => {
            let mut sums = zeros(alloc, columns.len())?;
            let rows = rows_in(alloc, items, columns.len(), &mut sums)?;
            let name = String::from_str(alloc, name)?;
            Ok(Table {
                name,
                columns,
                rows,
                sums,
            })
        }
        None => Err(Fault::Shape),
    }
}
