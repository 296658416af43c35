//! What the tests begin with: tables, and programs from their texts.

use input_tables::Tables;
use linked_program::checked::Checked;
use meaning::tree::Program;
use procedure_parser::parse;
use spawn_checker::check;
use std::alloc::Global;
use std::process::Abort;

/// Three rows of a quantity and a price.
const SALES: &str =
    "[sales]\ncolumns = [\"qty\", \"price\"]\nrows = [[1, 2, 5], [2, 3, 7], [3, 1, 100]]\n";

/// Two tables; `sales` is the second one.
const TWO_TABLES: &str = "[counts]
columns = [\"one\"]
rows = []
[sales]
columns = [\"qty\", \"price\"]
rows = []
";

/// The three rows.
pub fn sales(rt: &impl Abort, alloc: Global) -> Tables {
    Tables::from_toml(alloc, SALES).expect(rt, "tables")
}

/// The tables of which the checked programs speak.
pub fn two_tables(rt: &impl Abort, alloc: Global) -> Tables {
    Tables::from_toml(alloc, TWO_TABLES).expect(rt, "tables")
}

/// The program that a text is.
pub fn program(rt: &impl Abort, alloc: Global, text: &str) -> Program {
    parse(alloc, text.as_bytes()).expect(rt, "a program")
}

/// The checked program that a text is, over these tables.
pub fn checked_on(rt: &impl Abort, alloc: Global, text: &str, tables: &Tables) -> Checked {
    let program = program(rt, alloc, text);
    check(alloc, program, tables).expect(rt, "no violation")
}

/// The checked program of a text over two tables.
pub fn checked(rt: &impl Abort, alloc: Global, text: &str) -> Checked {
    checked_on(rt, alloc, text, &two_tables(rt, alloc))
}
