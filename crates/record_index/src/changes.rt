// The readings of a row and of its table's totals that an edit has ended, and those that it has brought back.
ghost use Rattle.std.specs.Prelude.{◌≡◌, ◌≤◌, ◌<◌, ◌+◌, ◌*◌, ◌++◌, ◌∷◌, [], cond, IfOk, IfSome, option_map, length, vec_capacity};
ghost use Rattle.meaning.specs.Tables.{is_there, row_of, at_column};
ghost use Rattle.meaning.specs.Records.{same_number};
ghost use Rattle.input_tables.specs.Edited.{IsBefore, columns_at, rows_at, limit_at};
ghost use Rattle.input_tables.specs.Rows.{AreWide};
ghost use Rattle.evaluation.specs.declared.note.Note.TheVariants.{Cell};
ghost use Rattle.record_index.specs.Befores.{now_of, held_only, cells_only, row_only, presence_only, limit_only, sums_only, sums_from};

use evaluation::note::Note;
use input_tables::{Before, Tables};
use record_theory::totals::{put_limit, put_sum};
use std::alloc::{AllocError, Global};
use std::marker::Model;

/// What held before an edit and doesn't behind it, and the other way, when that was compared last, with room for rows of fewer columns
/// than a number: to compare takes no memory.
#[derive(Drop)]
pub(crate) struct Changes {
    lost: Vec<Note>,
    won: Vec<Note>,
    room: usize,
}

impl Model for Changes {
    ghost use Rattle.std.specs.Prelude.{◌≤◌, ◌*◌, vec_capacity};
    ghost use Rattle.record_index.specs.Befores.{PlainChanges};

    ghost Value = { PlainChanges };

    ghost view = { λ c. record { room = c.room; lost = c.lost.items; won = c.won.items } };

    ghost invariant = { λ c. (2 * c.room ≤ vec_capacity c.lost) × (2 * c.room ≤ vec_capacity c.won) };
}

impl Changes {
    /// None, and room for none; it takes no memory.
    pub(crate) fn new(alloc: Global) -> Changes
        ensures room { result.room ≡ 0 }
    {
        Changes {
            lost: Vec::new(alloc),
            won: Vec::new(alloc),
            room: 0,
        }
    }

    /// None, with room for rows of so many columns.
    pub(crate) fn with_room(alloc: Global, columns: usize) -> Result<Changes, AllocError>
        ensures room { IfOk result (λ c. columns < c.room) }
    {
        let room = columns.checked_add(1).ok_or(AllocError)?;
        let notes = room.checked_mul(2).ok_or(AllocError)?;
        let mut changes = Changes::new(alloc);
        changes.lost.reserve_exact(notes)?;
        changes.won.reserve_exact(notes)?;
        changes.room = room;
        Ok(changes)
    }

    /// For rows of fewer columns than that there is room.
    pub(crate) fn room(&self) -> usize
        ensures room { result ≡ self.now.room }
    {
        self.room
    }

    /// Finds which readings of the row that was edited last, and of its table's totals, these tables hold no more, and which they hold
    /// that didn't hold before.
    pub(crate) fn compare(&mut self, tables: &Tables)
        requires wide { length tables.now.was.sums ≡ length (columns_at tables.now.tables tables.now.was.table) }
        requires room { length tables.now.was.sums < self.old.room }
        ensures now { IsBefore tables.now.tables (now_of tables.now.tables tables.now.was) }
        ensures room { self.new.room ≡ self.old.room }
        ensures lost { self.new.lost ≡ held_only tables.now.was
            (now_of tables.now.tables tables.now.was) }
        ensures won { self.new.won ≡ held_only
            (now_of tables.now.tables tables.now.was) tables.now.was }
    {
        let was = tables.before();
        // What the table's type keeps: each row has as many values as there are columns, so there is room for those that it has now.
        tables.width(was.place().0);
        self.compare_cells(was, tables);
        self.compare_presence(was, tables);
        self.compare_limit(was, tables);
        self.compare_sums(was, tables);
    }

    /// Lends the readings that held before and didn't when that was compared last.
    pub(crate) fn lost(&self) -> &[Note]
        ensures lost { result.now ≡ self.now.lost }
    {
        &self.lost
    }

    /// Lends those that held when that was compared last, and didn't before.
    pub(crate) fn won(&self) -> &[Note]
        ensures won { result.now ≡ self.now.won }
    {
        &self.won
    }

    // Compares the values of the row, before anything else is compared.
    fn compare_cells(&mut self, was: &Before, tables: &Tables)
        requires wide { AreWide (length was.now.was.sums) (rows_at tables.now.tables was.now.was.table) }
        requires room { length was.now.was.sums < self.old.room }
        ensures room { self.new.room ≡ self.old.room }
        ensures lost { self.new.lost ≡ row_only was.now.was.table was.now.was.row was.now.was.values
            (row_of (rows_at tables.now.tables was.now.was.table) was.now.was.row) }
        ensures won { self.new.won ≡ row_only was.now.was.table was.now.was.row
            (row_of (rows_at tables.now.tables was.now.was.table) was.now.was.row) was.now.was.values }
        ensures few { length self.new.lost ≤ length was.now.was.sums }
        ensures few_won { length self.new.won ≤ length was.now.was.sums }
    {
        let (table, row) = was.place();
        let now = tables.row(table, row);
        put_row(&mut self.lost, table, row, was.values(), now);
        put_row(&mut self.won, table, row, now, was.values());
    }

    // Compares whether the row is there.
    fn compare_presence(&mut self, was: &Before, tables: &Tables)
        requires room { length self.old.lost + 2 ≤ 2 * self.old.room }
        requires room_won { length self.old.won + 2 ≤ 2 * self.old.room }
        ensures room { self.new.room ≡ self.old.room }
        ensures lost { self.new.lost ≡ self.old.lost ++ presence_only was.now.was.table was.now.was.row
            (is_there was.now.was.values)
            (is_there (row_of (rows_at tables.now.tables was.now.was.table) was.now.was.row)) }
        ensures won { self.new.won ≡ self.old.won ++ presence_only was.now.was.table was.now.was.row
            (is_there (row_of (rows_at tables.now.tables was.now.was.table) was.now.was.row))
            (is_there was.now.was.values) }
        ensures few { length self.new.lost ≤ length self.old.lost + 1 }
        ensures few_won { length self.new.won ≤ length self.old.won + 1 }
    {
        let (table, row) = was.place();
        let there = was.is_there();
        let now = tables.has(table, row);
        put_presence(&mut self.lost, table, row, there, now);
        put_presence(&mut self.won, table, row, now, there);
    }

    // Compares the limit.
    fn compare_limit(&mut self, was: &Before, tables: &Tables)
        requires room { length self.old.lost + 1 ≤ 2 * self.old.room }
        requires room_won { length self.old.won + 1 ≤ 2 * self.old.room }
        ensures room { self.new.room ≡ self.old.room }
        ensures lost { self.new.lost ≡ self.old.lost ++ limit_only was.now.was.table was.now.was.limit
            (limit_at tables.now.tables was.now.was.table) }
        ensures won { self.new.won ≡ self.old.won ++ limit_only was.now.was.table
            (limit_at tables.now.tables was.now.was.table) was.now.was.limit }
        ensures few { length self.new.lost ≤ length self.old.lost + 1 }
        ensures few_won { length self.new.won ≤ length self.old.won + 1 }
    {
        let table = was.place().0;
        let now = tables.limit(table);
        put_limit(&mut self.lost, table, was.limit(), now);
        put_limit(&mut self.won, table, now, was.limit());
    }

    // Compares the sums.
    fn compare_sums(&mut self, was: &Before, tables: &Tables)
        requires room { length self.old.lost + length was.now.was.sums ≤ 2 * self.old.room }
        requires room_won { length self.old.won + length was.now.was.sums ≤ 2 * self.old.room }
        ensures room { self.new.room ≡ self.old.room }
        ensures lost { self.new.lost ≡ self.old.lost ++ sums_only was.now.was.table 0 was.now.was.sums
            (sums_from tables.now.tables was.now.was.table 0 (length was.now.was.sums)) }
        ensures won { self.new.won ≡ self.old.won ++ sums_only was.now.was.table 0
            (sums_from tables.now.tables was.now.was.table 0 (length was.now.was.sums)) was.now.was.sums }
    {
        put_changed_sums(
            &mut self.lost,
            &mut self.won,
            tables,
            was.place().0,
            was.sums(),
        );
    }
}

// The cells of the first row, if it is there, that the other hasn't, and nothing else; there is room for all.
fn put_row(
    notes: &mut Vec<Note>,
    table: usize,
    row: i64,
    values: Option<&[i64]>,
    others: Option<&[i64]>,
)
    requires room { IfSome values (λ vs. length vs.now ≤ vec_capacity notes.old) }
    ensures put { notes.new.items ≡ row_only table row (option_map (λ vs. vs.now) values.entry)
        (option_map (λ vs. vs.now) others.entry) }
    ensures room { vec_capacity notes.new ≡ vec_capacity notes.old }
{
    notes.clear();
    if let Some(values) = values {
        put_cells(notes, table, row, values, others);
    }
}

// The cells of a row that another, if it is there, hasn't; there is room for all.
fn put_cells(notes: &mut Vec<Note>, table: usize, row: i64, values: &[i64], others: Option<&[i64]>)
    requires none { notes.old.items ≡ [] }
    requires room { length values.now ≤ vec_capacity notes.old }
    ensures put { notes.new.items ≡ cells_only table row 0 values.now (option_map (λ vs. vs.now) others.entry) }
    ensures room { vec_capacity notes.new ≡ vec_capacity notes.old }
{
    for column in 0..values.len() {
        put_cell(notes, table, row, column, values[column], others);
    }
}

// The cell with that value, where another row, if it is there, hasn't it; there is room for it.
fn put_cell(
    notes: &mut Vec<Note>,
    table: usize,
    row: i64,
    column: usize,
    value: i64,
    others: Option<&[i64]>,
)
    requires room { length notes.old.items < vec_capacity notes.old }
    ensures put { notes.new.items ≡ notes.old.items
        ++ cond (same_number (at_column (option_map (λ vs. vs.now) others.entry) column) value) [] (Cell table row column value ∷ []) }
    ensures few { length notes.new.items ≤ length notes.old.items + 1 }
    ensures room { vec_capacity notes.new ≡ vec_capacity notes.old }
{
    if !is_at(others, column, value) {
        notes.push_reserved(Note::Cell {
            table,
            row,
            column,
            value,
        });
    }
}

// Whether a row is there and has that value in that column.
fn is_at(values: Option<&[i64]>, column: usize, value: i64) -> bool
    ensures at { result ≡ same_number (at_column (option_map (λ vs. vs.now) values.entry) column) value }
{
    match values {
        Some(values) => values.get(column).copied() == Some(value),
        None => false,
    }
}

// That the row is there, or isn't, where that isn't so at the other time; there is room for it.
fn put_presence(notes: &mut Vec<Note>, table: usize, row: i64, found: bool, other: bool)
    requires room { length notes.old.items < vec_capacity notes.old }
    ensures put { notes.new.items ≡ notes.old.items ++ presence_only table row found other }
    ensures room { vec_capacity notes.new ≡ vec_capacity notes.old }
{
    if found != other {
        notes.push_reserved(Note::Has { table, row, found });
    }
}

// The sums that are others now, as they were and as they are now; there is room for all.
fn put_changed_sums(
    lost: &mut Vec<Note>,
    won: &mut Vec<Note>,
    tables: &Tables,
    table: usize,
    sums: &[i64],
)
    requires room { length lost.old.items + length sums.now ≤ vec_capacity lost.old }
    requires room_won { length won.old.items + length sums.now ≤ vec_capacity won.old }
    ensures lost { lost.new.items ≡ lost.old.items ++ sums_only table 0 sums.now
        (sums_from tables.now.tables table 0 (length sums.now)) }
    ensures won { won.new.items ≡ won.old.items ++ sums_only table 0
        (sums_from tables.now.tables table 0 (length sums.now)) sums.now }
    ensures room { vec_capacity lost.new ≡ vec_capacity lost.old }
    ensures room_won { vec_capacity won.new ≡ vec_capacity won.old }
{
    for column in 0..sums.len() {
        let was = sums[column];
        let now = tables.sum(table, column);
        put_sum(lost, table, column, was, now);
        put_sum(won, table, column, now, was);
    }
}
