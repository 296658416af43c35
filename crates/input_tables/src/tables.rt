// Tables that are read from a document or added, and edited.

ghost use Rattle.std.specs.Prelude.{◌≡◌, ℕ, suc, ℤ, List, true, ◌<◌, length, IfOk, IfErr, OnOk, OnErr, IfSome, IfNone, Some, None, Ok, Err, []};
ghost use Rattle.std.specs.Prelude.{option_map, option_copied, slice_get, map, string_bytes};
ghost use Rattle.meaning.specs.Tree.{Name};
ghost use Rattle.meaning.specs.TreeView.{Lined};
ghost use Rattle.meaning.specs.Tables.{index_of, columns_of, cell_of, has_row, limit_of, sum_of, row_of};
ghost use Rattle.input_tables.specs.Document.{reading, HasCause};
ghost use Rattle.input_tables.specs.Adding.{refusal, own_refusal, unless_refused, IsAddCause, without_rows, with_table, rowless};
ghost use Rattle.input_tables.specs.Shapes.{table_in};
ghost use Rattle.meaning.specs.Records.{Revised};
ghost use Rattle.meaning.specs.Edits.{after_put, put_in, after_delete, delete_in, in_range, table_of};
ghost use Rattle.input_tables.specs.Edited.{beside, row_refusal, IsPutCause, edited, changed_at, row_into, row_out_of, names_of};
ghost use Rattle.input_tables.specs.Rows.{AreWide};
ghost use Rattle.input_tables.specs.Edited.{columns_at, rows_at, cell_at, has_at, limit_at, sum_at, CellsFit};
ghost use Rattle.input_tables.specs.Edited.{IsNoted, HasNoMore};

use crate::adding;
use crate::before::Before;
use crate::document::tables_in;
use crate::refusal::{AddError, PutError, TablesError};
use crate::table::{Table, find};
use std::alloc::{AllocError, Global};
use std::marker::Model;
use std::mem;
use table_parts::found::value_in;
use table_parts::refusals;
use table_parts::refusals::RowError;
use table_parts::texts::document;

/// Tables, how many of their edits were accepted, and what the row of the last one was before it. Those of a document stand in byte
/// order of their names, and tables that are added stand behind them.
#[derive(Drop)]
pub struct Tables {
    listed: Vec<Table>,
    edits: u64,
    // The row that was edited last, as it was, and as much room for the row that is edited next: a refused edit leaves the first.
    before: Before,
    next: Before,
}

impl Model for Tables {
    ghost use Rattle.input_tables.specs.Edited.{Edited, HasNoMore};

    ghost Value = { Edited };

    ghost view = { λ t. record { tables = t.listed.items; edits = t.edits; was = t.before.was } };

    ghost invariant = { λ t. HasNoMore t.listed.items t.before.room × HasNoMore t.listed.items t.next.room };
}

impl Tables {
    /// No tables.
    pub fn new(alloc: Global) -> Tables
        ensures tables { result.tables ≡ [] }
        ensures edits { result.edits ≡ 0 }
    {
        Tables {
            listed: Vec::new(alloc),
            edits: 0,
            before: Before::new(alloc),
            next: Before::new(alloc),
        }
    }

    /// The tables of a document; refused where it isn't TOML, at its 65th table, at its first faulty one, or for want of
    /// memory.
    pub fn from_toml(alloc: Global, text: &str) -> Result<Tables, TablesError>
        ensures read { IfOk result (λ read. reading text.now ≡ Ok read.tables) }
        ensures edits { IfOk result (λ read. read.edits ≡ 0) }
        ensures refused { IfErr result (HasCause text.now) }
    {
        match document(alloc, text)? {
            Some(document) => {
                let listed = tables_in(alloc, &document)?;
                Ok(unedited(alloc, listed)?)
            }
            None => Err(TablesError::NotToml),
        }
    }

    /// Adds a table without rows, of that name and with these columns, behind the others. Refused where no document could
    /// have it beside them, by the first cause in the order of `AddError`, or for want of memory; a refusal changes nothing.
    /// It is no edit, so `edit_number` stays. Reports name their tables, so none can tell in which order they stand.
    #[tactic(auto, using(crate::proofs::Added::in_document))]
    pub fn add(&mut self, alloc: Global, name: &str, columns: &[&str]) -> Result<(), AddError>
        ensures added { OnOk result (self.new
            ≡ with_table self.old (without_rows name.now (map (λ c. c.now) columns.now))) }
        ensures allowed { OnOk result (refusal self.old.tables name.now
            (map (λ c. c.now) columns.now) ≡ None) }
        ensures refused { IfErr result (IsAddCause (refusal self.old.tables name.now
            (map (λ c. c.now) columns.now))) }
        ensures read { table_in name.now (rowless (map (λ c. c.now) columns.now))
            ≡ unless_refused (own_refusal name.now (map (λ c. c.now) columns.now))
            (without_rows name.now (map (λ c. c.now) columns.now)) }
        ensures same { OnErr result (self.new ≡ self.old) }
    {
        adding::check(&self.listed, name, columns)?;
        let table = Table::without_rows(alloc, name, columns)?;
        self.before.make_room(columns.len())?;
        self.next.make_room(columns.len())?;
        self.listed.push(table)?;
        Ok(())
    }

    /// How many edits were accepted.
    pub fn edit_number(&self) -> u64
        ensures { result ≡ self.now.edits }
    {
        self.edits
    }

    /// Lends the row of the last edit that was accepted, as it was before it, with its table's limit and sums.
    pub fn before(&self) -> &Before
        ensures was { result.now.was ≡ self.now.was }
    {
        &self.before
    }

    /// Notes what other tables have at a row of the table of that number, as if the last edit had changed it from that: so who went by those
    /// tables can be told of the row where these are another reading of them. It is no edit, so `edit_number` stays. Want of memory is
    /// the only error, and nothing changes then.
    pub fn note_row(&mut self, other: &Tables, number: usize, row: i64) -> Result<(), AllocError>
        requires { number < length other.now.tables }
        ensures noted { OnOk result (IsNoted other.now.tables number row self.new.was) }
        ensures tables { self.new.tables ≡ self.old.tables }
        ensures edits { self.new.edits ≡ self.old.edits }
        ensures same { OnErr result (self.new ≡ self.old) }
    {
        let table = other.numbered(number);
        self.before.make_room(table.column_count())?;
        self.before.note(table, number, row);
        Ok(())
    }

    /// No table has more columns than that.
    pub fn most_columns(&self) -> usize
        ensures most { HasNoMore self.now.tables result }
    {
        self.before.room()
    }

    /// How many tables there are.
    pub fn count(&self) -> usize
        ensures { result ≡ length self.now.tables }
    {
        self.listed.len()
    }

    /// Lends the name of the table of a number.
    pub fn name(&self, table: usize) -> &str
        requires { table < length self.now.tables }
        ensures { Some result.now ≡ slice_get (names_of self.now.tables) table }
    {
        self.listed[table].name()
    }

    /// Lends the names of the columns of the table of a number, as declared.
    pub fn columns(&self, table: usize) -> &[String]
        requires { table < length self.now.tables }
        ensures { map string_bytes result.now ≡ columns_at self.now.tables table }
    {
        self.listed[table].columns()
    }

    /// What the type keeps: each cell is a number of 64 bits. It takes time in proportion to the number of tables.
    pub fn cells_fit(&self)
        ensures fit { CellsFit self.now.tables }
    {
        for table in &self.listed {
            table.cells_fit();
        }
    }

    // The table of a number.
    fn at(&self, number: usize) -> Option<&Table>
        ensures { option_copied result ≡ slice_get self.now.tables number }
    {
        self.listed.get(number)
    }

    // The table of a name, and its number.
    fn find(&self, name: &str) -> Option<(usize, &Table)>
        ensures found { option_map (λ p. p.1.now) result ≡ table_of self.now.tables name.now }
        ensures number { IfSome result (λ p. p.0 ≡ index_of (names_of self.now.tables) name.now) }
        ensures within { IfSome result (λ p. p.0 < length self.now.tables) }
        ensures absent { IfNone result (index_of (names_of self.now.tables) name.now ≡ length self.now.tables) }
    {
        find(&self.listed, name)
    }

    /// The number of the table of a name.
    pub fn table(&self, name: &str) -> Option<usize>
        ensures found { IfSome result (λ number. number
            ≡ index_of (names_of self.now.tables) name.now) }
        ensures within { IfSome result (λ number. number < length self.now.tables) }
        ensures absent { IfNone result (index_of (names_of self.now.tables) name.now
            ≡ length self.now.tables) }
    {
        match self.find(name) {
            Some((number, _)) => Some(number),
            None => None,
        }
    }

    /// Lends the values of a row, by the number of the table, where no row before it is missing: it takes a few instructions.
    /// Where it finds none there may be such a row.
    #[inline(always)]
    pub fn row_at_once(&self, table: usize, row: i64) -> Option<&[i64]>
        ensures row { IfSome result (λ values. row_of (rows_at self.now.tables table) row
            ≡ Some values.now) }
    {
        match self.at(table) {
            Some(table) => table.row_at_once(row),
            None => None,
        }
    }

    /// Lends the values of a row, by the number of the table.
    pub fn row(&self, table: usize, row: i64) -> Option<&[i64]>
        ensures row { option_map (λ values. values.now) result
            ≡ row_of (rows_at self.now.tables table) row }
    {
        match self.at(table) {
            Some(table) => table.row(row),
            None => None,
        }
    }

    /// How many columns the table of a number has, and so how many values each of its rows; 0 where there is no such table.
    pub fn width(&self, table: usize) -> usize
        ensures columns { result ≡ length (columns_at self.now.tables table) }
        ensures rows { AreWide result (rows_at self.now.tables table) }
    {
        match self.at(table) {
            Some(table) => table.width(),
            None => 0,
        }
    }

    /// The value of a row in a column, by the numbers of the table and the column.
    pub fn cell(&self, table: usize, row: i64, column: usize) -> Option<i64>
        ensures numbered { result ≡ cell_at self.now.tables table row column }
        ensures named { (t c : Name) → table ≡ index_of (names_of self.now.tables) t
            → column ≡ index_of (columns_of self.now.tables t) c
            → result ≡ cell_of self.now.tables t row c }
    {
        match self.row_at_once(table, row) {
            Some(values) => value_in(values, column),
            None => self.look_up(table, row, column),
        }
    }

    // The value of a row in a column, wherever the row stands.
    #[inline(never)]
    fn look_up(&self, table: usize, row: i64, column: usize) -> Option<i64>
        ensures { result ≡ cell_at self.now.tables table row column }
    {
        match self.at(table) {
            Some(table) => table.cell(row, column),
            None => None,
        }
    }

    /// Whether the table of a number has a row.
    pub fn has(&self, table: usize, row: i64) -> bool
        ensures numbered { result ≡ has_at self.now.tables table row }
        ensures named { (t : Name) → table ≡ index_of (names_of self.now.tables) t
            → result ≡ has_row self.now.tables t row }
    {
        match self.at(table) {
            Some(table) => table.has(row),
            None => false,
        }
    }

    /// One more than the greatest row number of the table of a number, or 0 where it has no rows.
    pub fn limit(&self, table: usize) -> i64
        ensures numbered { result ≡ limit_at self.now.tables table }
        ensures named { (t : Name) → table ≡ index_of (names_of self.now.tables) t
            → result ≡ limit_of self.now.tables t }
    {
        match self.at(table) {
            Some(table) => table.limit(),
            None => 0,
        }
    }

    /// The sum of a column of the table of a number over all its rows, wrapped to 64 bits; 0 where there are no rows or no such
    /// column. It is kept with each edit, so it takes no time in the rows, and no memory.
    pub fn sum(&self, table: usize, column: usize) -> i64
        ensures numbered { result ≡ sum_at self.now.tables table column }
        ensures named { (t c : Name) → table ≡ index_of (names_of self.now.tables) t
            → column ≡ index_of (columns_of self.now.tables t) c
            → result ≡ sum_of self.now.tables t c }
    {
        match self.at(table) {
            Some(table) => table.sum(column),
            None => 0,
        }
    }

    /// Puts a row into a table, in the place of the one of its number, and answers the table's number; what the row was is noted.
    /// Refused by E4, E6, E5, E18, or for want of memory, in this order; a refusal changes nothing.
    pub fn put(
        &mut self,
        alloc: Global,
        table: &str,
        row: i64,
        values: &[i64],
    ) -> Result<usize, PutError>
        ensures number { IfOk result (λ number. number
            ≡ index_of (names_of self.old.tables) table.now) }
        ensures put { OnOk result ((program : Revised) (lines : List Lined)
            → after_put (beside program lines self.old) table.now row values.now
            ≡ Ok (beside program lines self.new)) }
        ensures noted { IfOk result (λ number. IsNoted self.old.tables number row self.new.was) }
        ensures refused { IfErr result (λ error. (program : Revised) (lines : List Lined)
            → IsPutCause (after_put (beside program lines self.old) table.now row values.now)
            error) }
        ensures same { OnErr result (self.new ≡ self.old) }
    {
        // Pages take their memory where their table's rows do, so no list is made here.
        let _ = alloc;
        match self.find(table) {
            None => Err(PutError::Refused(RowError::UnknownTable)),
            Some((number, _)) => match self.put_at(number, row, values) {
                Ok(()) => Ok(number),
                Err(error) => Err(error),
            },
        }
    }

    /// Puts a row into the table of a number, in the place of the one of its own; what the row was is noted. Refused by E6, E5, E18, or
    /// for want of memory, in this order; a refusal changes nothing.
    pub fn put_at(&mut self, number: usize, row: i64, values: &[i64]) -> Result<(), PutError>
        requires { number < length self.old.tables }
        ensures put { OnOk result ((t : Name) → number ≡ index_of (names_of self.old.tables) t
            → (program : Revised) (lines : List Lined)
            → after_put (beside program lines self.old) t row values.now
            ≡ Ok (beside program lines self.new)) }
        ensures noted { OnOk result (IsNoted self.old.tables number row self.new.was) }
        ensures refused { IfErr result (λ error. (t : Name)
            → number ≡ index_of (names_of self.old.tables) t
            → (program : Revised) (lines : List Lined)
            → IsPutCause (after_put (beside program lines self.old) t row values.now) error) }
        ensures same { OnErr result (self.new ≡ self.old) }
    {
        match self.check_put(number, row, values.len()) {
            Ok(()) => {
                self.put_row(number, row, values)?;
                Ok(())
            }
            Err(error) => Err(PutError::Refused(error)),
        }
    }

    /// Takes a row out of a table, and answers the table's number; what the row was is noted. Refused by E4, E6, E7, E18, in this
    /// order; a refusal changes nothing. It takes no memory, and is never refused for want of it.
    pub fn delete(&mut self, table: &str, row: i64) -> Result<usize, RowError>
        ensures number { IfOk result (λ number. number
            ≡ index_of (names_of self.old.tables) table.now) }
        ensures deleted { OnOk result ((program : Revised) (lines : List Lined)
            → after_delete (beside program lines self.old) table.now row
            ≡ Ok (beside program lines self.new)) }
        ensures noted { IfOk result (λ number. IsNoted self.old.tables number row self.new.was) }
        ensures refused { IfErr result (λ error. (program : Revised) (lines : List Lined)
            → after_delete (beside program lines self.old) table.now row
            ≡ Err (row_refusal error)) }
        ensures same { OnErr result (self.new ≡ self.old) }
    {
        match self.find(table) {
            None => Err(RowError::UnknownTable),
            Some((number, _)) => match self.delete_at(number, row) {
                Ok(()) => Ok(number),
                Err(error) => Err(error),
            },
        }
    }

    /// Takes a row out of the table of a number; what the row was is noted. Refused by E6, E7, E18, in this order; a refusal changes
    /// nothing. It takes no memory, and is never refused for want of it.
    pub fn delete_at(&mut self, number: usize, row: i64) -> Result<(), RowError>
        requires { number < length self.old.tables }
        ensures deleted { OnOk result ((t : Name) → number ≡ index_of (names_of self.old.tables) t
            → (program : Revised) (lines : List Lined)
            → after_delete (beside program lines self.old) t row
            ≡ Ok (beside program lines self.new)) }
        ensures noted { OnOk result (IsNoted self.old.tables number row self.new.was) }
        ensures refused { IfErr result (λ error. (t : Name)
            → number ≡ index_of (names_of self.old.tables) t
            → (program : Revised) (lines : List Lined)
            → after_delete (beside program lines self.old) t row ≡ Err (row_refusal error)) }
        ensures same { OnErr result (self.new ≡ self.old) }
    {
        match self.check_delete(number, row) {
            Ok(()) => {
                self.take_row(number, row);
                Ok(())
            }
            Err(error) => Err(error),
        }
    }

    // The table of a number that there is.
    fn numbered(&self, number: usize) -> &Table
        requires { number < length self.now.tables }
        ensures { Some result.now ≡ slice_get self.now.tables number }
    {
        &self.listed[number]
    }

    // Whether a row of so many values may be put into the table of a number, whatever its name, or why it may not.
    fn check_put(&self, number: usize, row: i64, values: usize) -> Result<(), RowError>
        requires { number < length self.now.tables }
        ensures wide { OnOk result (values ≡ length (columns_at self.now.tables number)) }
        ensures range { OnOk result (in_range row ≡ true) }
        ensures room { OnOk result (self.now.edits < 18446744073709551615) }
        ensures allowed { OnOk result ((t : Name) (program : Revised) (lines : List Lined) (vs : List ℤ) → length vs ≡ values
            → put_in (beside program lines self.now) t row vs (slice_get self.now.tables number)
            ≡ Ok (edited program lines (row_into row vs) self.now t)) }
        ensures refused { IfErr result (λ error. (t : Name) (program : Revised) (lines : List Lined) (vs : List ℤ) → length vs ≡ values
            → put_in (beside program lines self.now) t row vs (slice_get self.now.tables number) ≡ Err (row_refusal error)) }
    {
        let columns = self.numbered(number).column_count();
        refusals::check_put(row, values, columns, self.edit_number())
    }

    // Whether a row may be taken out of the table of a number, whatever its name, or why it may not.
    fn check_delete(&self, number: usize, row: i64) -> Result<(), RowError>
        requires { number < length self.now.tables }
        ensures room { OnOk result (self.now.edits < 18446744073709551615) }
        ensures allowed { OnOk result ((t : Name) (program : Revised) (lines : List Lined)
            → delete_in (beside program lines self.now) t row (slice_get self.now.tables number)
            ≡ Ok (edited program lines (row_out_of row) self.now t)) }
        ensures refused { IfErr result (λ error. (t : Name) (program : Revised) (lines : List Lined)
            → delete_in (beside program lines self.now) t row (slice_get self.now.tables number)
            ≡ Err (row_refusal error)) }
    {
        let there = self.numbered(number).has(row);
        refusals::check_delete(row, there, self.edit_number())
    }

    // Puts a row into the table of a number, notes what it was, and counts the edit.
    fn put_row(&mut self, number: usize, row: i64, values: &[i64]) -> Result<(), AllocError>
        requires within { number < length self.old.tables }
        requires wide { length values.now ≡ length (columns_at self.old.tables number) }
        requires range { in_range row ≡ true }
        requires room { self.old.edits < 18446744073709551615 }
        ensures tables { OnOk result (self.new.tables ≡ changed_at (row_into row values.now) self.old.tables number) }
        ensures edits { OnOk result (self.new.edits ≡ suc self.old.edits) }
        ensures noted { OnOk result (IsNoted self.old.tables number row self.new.was) }
        ensures same { OnErr result (self.new ≡ self.old) }
    {
        self.next.note(&self.listed[number], number, row);
        let table = &mut self.listed[number];
        table.put(row, values)?;
        mem::swap(&mut self.before, &mut self.next);
        self.count_edit();
        Ok(())
    }

    // Takes a row out of the table of a number, notes what it was, and counts the edit.
    fn take_row(&mut self, number: usize, row: i64)
        requires within { number < length self.old.tables }
        requires room { self.old.edits < 18446744073709551615 }
        ensures tables { self.new.tables ≡ changed_at (row_out_of row) self.old.tables number }
        ensures edits { self.new.edits ≡ suc self.old.edits }
        ensures noted { IsNoted self.old.tables number row self.new.was }
    {
        self.before.note(&self.listed[number], number, row);
        let table = &mut self.listed[number];
        table.delete(row);
        self.count_edit();
    }

    // Counts an edit that was accepted.
    fn count_edit(&mut self)
        requires { self.old.edits < 18446744073709551615 }
        ensures tables { self.new.tables ≡ self.old.tables }
        ensures edits { self.new.edits ≡ suc self.old.edits }
        ensures was { self.new.was ≡ self.old.was }
    {
        let edits = &mut self.edits;
        *edits += 1;
    }
}

// Tables that were not edited yet, with room to note a row of each.
fn unedited(alloc: Global, listed: Vec<Table>) -> Result<Tables, AllocError>
    ensures tables { IfOk result (λ made. made.tables ≡ listed.items) }
    ensures edits { IfOk result (λ made. made.edits ≡ 0) }
{
    let columns = most_columns(&listed);
    let before = Before::with_room(alloc, columns)?;
    let next = Before::with_room(alloc, columns)?;
    Ok(Tables {
        listed,
        edits: 0,
        before,
        next,
    })
}

// How many columns the widest table has.
fn most_columns(tables: &[Table]) -> usize
    ensures most { HasNoMore tables.now result }
{
    let mut most = 0;
    for number in 0..tables.len() {
        most = most.max(width_of(tables, number));
    }
    most
}

// How many columns the table of a number has; 0 where there is no such table.
fn width_of(tables: &[Table], number: usize) -> usize
    ensures many { result ≡ length (columns_at tables.now number) }
{
    match tables.get(number) {
        Some(table) => table.column_count(),
        None => 0,
    }
}
