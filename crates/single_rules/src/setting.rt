//! What the statements of a procedure are checked against.

use crate::lines::LineTable;
use crate::location::Location;
use linked_program::tables::TableNames;
use meaning::tree::Declaration;

/// The program's declarations, the tables' names, whether the procedure is `main`, which declaration it is, and the lines of its statements.
#[derive(Drop)]
pub struct Setting<'a> {
    pub declarations: &'a [Declaration],
    pub tables: &'a [TableNames],
    pub in_main: bool,
    pub declaration: usize,
    pub lines: LineTable,
}
