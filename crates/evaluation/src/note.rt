//! What was read of the tables.

/// A reading, by the numbers of the table and the column, with what it held.
#[derive(Clone, Copy, PartialEq, Eq, Hash)]
pub enum Note {
    Cell {
        table: usize,
        row: i64,
        column: usize,
        value: i64,
    },
    Has {
        table: usize,
        row: i64,
        found: bool,
    },
    Limit {
        table: usize,
        value: i64,
    },
    Sum {
        table: usize,
        column: usize,
        value: i64,
    },
}
