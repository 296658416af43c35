//! The names of tables and of their columns, by which a program is checked.

/// A table by its name and the names of its columns.
#[derive(Drop)]
pub struct TableNames {
    pub name: String,
    pub columns: Vec<String>,
}
