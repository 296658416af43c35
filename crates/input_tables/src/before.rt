// A row and its table's totals as they were before an edit.

ghost use Rattle.std.specs.Prelude.{◌≡◌, ◌≤◌, ℕ, pos, cond, IfOk, IfSome, OnOk, Some, None, option_map, length, vec_capacity};
ghost use Rattle.meaning.specs.Tables.{row_of, above_all, is_there};
ghost use Rattle.input_tables.specs.Befores.{no_row};
ghost use Rattle.input_tables.specs.Sums.{AreTotals};

use crate::table::Table;
use std::alloc::{AllocError, Global};
use std::marker::Model;

/// A row of the table of a number, the table's limit and the sums of its columns at one time, with room for rows of so many columns: to
/// note a row takes no memory.
#[derive(Drop)]
pub struct Before {
    table: usize,
    row: i64,
    there: bool,
    values: Vec<i64>,
    limit: i64,
    sums: Vec<i64>,
    room: usize,
}

impl Model for Before {
    ghost use Rattle.std.specs.Prelude.{◌≤◌, cond, Some, None, length, vec_capacity};
    ghost use Rattle.input_tables.specs.Befores.{PlainNoted};

    ghost Value = { PlainNoted };

    ghost view = { λ b. record {
      was = record {
        table = b.table;
        row = b.row;
        values = cond b.there (Some b.values.items) None;
        limit = b.limit;
        sums = b.sums.items;
      };
      room = b.room;
    } };

    ghost invariant = { λ b. (length b.values.items ≤ length b.sums.items) × (b.room ≤ vec_capacity b.values) × (b.room ≤ vec_capacity b.sums) };
}

impl Before {
    /// No row, and room for none; it takes no memory.
    pub fn new(alloc: Global) -> Before
        ensures none { result.was ≡ no_row }
        ensures room { result.room ≡ 0 }
    {
        Before {
            table: 0,
            row: 0,
            there: false,
            values: Vec::new(alloc),
            limit: 0,
            sums: Vec::new(alloc),
            room: 0,
        }
    }

    /// No row, with room for rows of so many columns.
    pub fn with_room(alloc: Global, columns: usize) -> Result<Before, AllocError>
        ensures none { IfOk result (λ b. b.was ≡ no_row) }
        ensures room { IfOk result (λ b. b.room ≡ columns) }
    {
        let mut before = Before::new(alloc);
        before.values.reserve_exact(columns)?;
        before.sums.reserve_exact(columns)?;
        before.room = columns;
        Ok(before)
    }

    /// Makes room for rows of so many columns. What was noted stays.
    pub fn make_room(&mut self, columns: usize) -> Result<(), AllocError>
        ensures room { OnOk result (columns ≤ self.new.room) }
        ensures more { self.old.room ≤ self.new.room }
        ensures same { self.new.was ≡ self.old.was }
    {
        if self.room < columns {
            self.values.reserve_exact(columns)?;
            self.sums.reserve_exact(columns)?;
            self.room = columns;
        }
        Ok(())
    }

    /// For rows of so many columns there is room.
    pub fn room(&self) -> usize
        ensures room { result ≡ self.now.room }
    {
        self.room
    }

    /// Notes the row of that number of a table of this number, whether it is there or not.
    pub fn note(&mut self, table: &Table, number: usize, row: i64)
        requires room { length table.now.columns ≤ self.old.room }
        ensures table { self.new.was.table ≡ number }
        ensures row { self.new.was.row ≡ row }
        ensures values { row_of table.now.rows row ≡ self.new.was.values }
        ensures limit { above_all (pos 0) table.now.rows ≡ self.new.was.limit }
        ensures sums { AreTotals self.new.was.sums table.now.rows }
        ensures wide { length self.new.was.sums ≡ length table.now.columns }
        ensures room { self.new.room ≡ self.old.room }
    {
        // What the table's type keeps: the row has as many values as there are columns.
        table.width();
        self.table = number;
        self.row = row;
        self.limit = table.limit();
        self.there = put_values(&mut self.values, table.row(row));
        put_all(&mut self.sums, table.sums());
    }

    /// The number of the table, and the row.
    pub fn place(&self) -> (usize, i64)
        ensures table { result.0 ≡ self.now.was.table }
        ensures row { result.1 ≡ self.now.was.row }
    {
        (self.table, self.row)
    }

    /// Lends the row's values, where it was there.
    pub fn values(&self) -> Option<&[i64]>
        ensures values { option_map (λ vs. vs.now) result ≡ self.now.was.values }
        ensures few { IfSome result (λ vs. length vs.now ≤ length self.now.was.sums) }
    {
        if self.there { Some(&self.values) } else { None }
    }

    /// Whether the row was there.
    pub fn is_there(&self) -> bool
        ensures there { result ≡ is_there self.now.was.values }
    {
        self.there
    }

    /// What the table's limit was.
    pub fn limit(&self) -> i64
        ensures limit { result ≡ self.now.was.limit }
    {
        self.limit
    }

    /// Lends the sums of the table's columns.
    pub fn sums(&self) -> &[i64]
        ensures sums { result.now ≡ self.now.was.sums }
    {
        &self.sums
    }
}

// These numbers, for which there is room, in the place of those that are there.
fn put_all(list: &mut Vec<i64>, numbers: &[i64])
    requires room { length numbers.now ≤ vec_capacity list.old }
    ensures put { list.new.items ≡ numbers.now }
    ensures room { vec_capacity list.new ≡ vec_capacity list.old }
{
    list.clear();
    for number in numbers {
        list.push_reserved(*number);
    }
}

// The values of a row, for which there is room, where it is there: whether it is.
fn put_values(values: &mut Vec<i64>, row: Option<&[i64]>) -> bool
    requires room { IfSome row (λ vs. length vs.now ≤ vec_capacity values.old) }
    ensures values { cond result (Some values.new.items) None ≡ option_map (λ vs. vs.now) row.entry }
    ensures few { (w : ℕ) → IfSome row.entry (λ vs. length vs.now ≤ w) → length values.new.items ≤ w }
    ensures room { vec_capacity values.new ≡ vec_capacity values.old }
{
    match row {
        Some(cells) => {
            put_all(values, cells);
            true
        }
        None => {
            values.clear();
            false
        }
    }
}
