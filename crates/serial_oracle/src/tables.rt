//! Tables as plain rows.

/// A row: its number and one value for each column.
#[derive(Drop)]
pub struct Row {
    pub number: i64,
    pub values: Vec<i64>,
}

/// A table: its name, its columns and its rows.
#[derive(Drop)]
pub struct TableRows {
    pub name: String,
    pub columns: Vec<String>,
    pub rows: Vec<Row>,
}
