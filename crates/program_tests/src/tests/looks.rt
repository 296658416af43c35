//! Questions to tables, with their answers.

use input_tables::{Before, Tables};

/// A question to tables, with its answer.
#[derive(Clone, Copy)]
pub enum Look {
    Tables(usize),
    Edits(u64),
    Table(&'static str, Option<usize>),
    Named(usize, &'static str),
    TwoColumns(usize, &'static str, &'static str),
    Limit(usize, i64),
    Sum(usize, usize, i64),
    Cell(usize, i64, usize, Option<i64>),
    /// The row of the last edit, its first value before it, and what its table's limit and first sum were.
    Before(usize, i64, Option<i64>, i64, i64),
}

/// Whether there is a table of this number and name.
fn is_named(tables: &Tables, table: usize, name: &str) -> bool {
    table < tables.count() && tables.name(table) == name
}

fn is_text(text: Option<&String>, wanted: &str) -> bool {
    match text {
        Some(text) => text.as_str() == wanted,
        None => false,
    }
}

/// Whether there is a table of this number, of these two columns.
fn has_two_columns(tables: &Tables, table: usize, first: &str, second: &str) -> bool {
    if table >= tables.count() {
        return false;
    }
    let columns = tables.columns(table);
    columns.len() == 2 && is_text(columns.first(), first) && is_text(columns.last(), second)
}

/// Whether the row of the last edit is that one, and had this first value, this limit and this first sum.
fn was(before: &Before, row: (usize, i64), value: Option<i64>, limit: i64, sum: i64) -> bool {
    let place = before.place();
    let found = match before.values() {
        Some(values) => values.first().copied(),
        None => None,
    };
    place.0 == row.0
        && place.1 == row.1
        && found == value
        && before.limit() == limit
        && before.sums().first().copied() == Some(sum)
}

/// Whether the tables answer so.
fn is_answered(tables: &Tables, look: &Look) -> bool {
    match *look {
        Look::Tables(count) => tables.count() == count,
        Look::Edits(count) => tables.edit_number() == count,
        Look::Table(name, number) => tables.table(name) == number,
        Look::Named(table, name) => is_named(tables, table, name),
        Look::TwoColumns(table, first, second) => has_two_columns(tables, table, first, second),
        Look::Limit(table, limit) => tables.limit(table) == limit,
        Look::Sum(table, column, sum) => tables.sum(table, column) == sum,
        Look::Cell(table, row, column, value) => tables.cell(table, row, column) == value,
        Look::Before(table, row, value, limit, sum) => {
            was(tables.before(), (table, row), value, limit, sum)
        }
    }
}

/// The place of the first question that the tables answer otherwise.
pub fn wrong_answer(tables: &Tables, looks: &[Look]) -> Option<usize> {
    for place in 0..looks.len() {
        if !is_answered(tables, &looks[place]) {
            return Some(place);
        }
    }
    None
}
