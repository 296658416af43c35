//! Tables that a table is added to by a call.

use super::beginnings::sales;
use super::looks::Look::{Cell, Edits, Limit, Named, Sum, Table, TwoColumns};
use super::looks::{Look, wrong_answer};
use input_tables::{AddError, Tables};
use std::alloc::Global;
use std::process::Abort;

const COLUMNS: [&str; 2] = ["qty", "price"];

/// What is read of a table that is added behind the example's, and of a row that is put into it and changed; a column and a table that
/// there isn't have the sum 0. The last edit took out the example's last row, and a refused one behind it changed nothing.
const ADDED: [Look; 13] = [
    Look::Tables(2),
    Edits(3),
    Table("sales", Some(0)),
    Table("parts", Some(1)),
    Named(1, "parts"),
    TwoColumns(1, "qty", "price"),
    Cell(1, 7, 1, Some(5)),
    Limit(0, 3),
    Sum(0, 1, 12),
    Sum(1, 1, 5),
    Sum(0, 2, 0),
    Sum(2, 0, 0),
    Look::Before(0, 3, Some(1), 4, 6),
];

/// What the example, read anew, answers where it has noted the row that was taken out of the edited one.
const NOTED: [Look; 4] = [
    Edits(0),
    Limit(0, 4),
    Sum(0, 0, 6),
    Look::Before(0, 3, None, 3, 5),
];

/// A table's name, its columns, and why it isn't added.
type Wrong = (&'static str, &'static [&'static str], &'static str);

/// Tables that aren't added behind the example's, and why.
const NOT_ADDED: [Wrong; 6] = [
    ("sales", &COLUMNS, "there is a table of that name"),
    ("Parts", &COLUMNS, "the table's name is no name"),
    ("memo", &COLUMNS, "the table's name is no name"),
    ("parts", &[], "a table has 1 to 8 columns"),
    ("parts", &["qty", "9"], "a column's name is no name"),
    ("parts", &["qty", "qty"], "two columns have one name"),
];

/// Whether an addition is refused so.
fn is_not_added(rt: &impl Abort, alloc: Global, added: Result<(), AddError>, wanted: &str) -> bool {
    match added {
        Ok(()) => false,
        Err(error) => format!(in alloc; "{error}").expect(rt, "memory").as_str() == wanted,
    }
}

/// Compares how a table is refused.
fn is_refused(rt: &impl Abort, alloc: Global, tables: &mut Tables, row: Wrong) {
    let added = tables.add(alloc, row.0, row.1);
    assert!(rt; is_not_added(rt, alloc, added, row.2));
}

/// Asks for tables that are refused, adds one, and puts a row into it.
fn add(rt: &impl Abort, alloc: Global, tables: &mut Tables) {
    for row in &NOT_ADDED {
        is_refused(rt, alloc, tables, *row);
    }
    tables.add(alloc, "parts", &COLUMNS).expect(rt, "a table");
    tables.put(alloc, "parts", 7, &[3, 4]).expect(rt, "a row");
}

/// Edits by the numbers of tables: another row in the place of the one that was put, and the example's last one taken out, once.
fn edit(rt: &impl Abort, tables: &mut Tables) {
    let parts = tables.table("parts").expect(rt, "a table");
    tables.put_at(parts, 7, &[3, 5]).expect(rt, "a row");
    let sales = tables.table("sales").expect(rt, "a table");
    tables.delete_at(sales, 3).expect(rt, "a row");
    let same = tables.table("sales").expect(rt, "a table");
    assert!(rt; tables.delete_at(same, 3).is_err());
}

/// The example, read anew, with what others have at that row of its table noted.
fn noted(rt: &impl Abort, alloc: Global, others: &Tables, row: i64) -> Tables {
    let mut tables = sales(rt, alloc);
    let number = others.table("sales").expect(rt, "a table");
    tables.note_row(others, number, row).expect(rt, "memory");
    tables
}

#[test]
fn tables_are_added(rt: HostRuntime) {
    let mut tables = sales(&rt, rt.alloc());
    add(&rt, rt.alloc(), &mut tables);
    edit(&rt, &mut tables);
    assert!(&rt; wrong_answer(&tables, &ADDED).is_none());
    let anew = noted(&rt, rt.alloc(), &tables, 3);
    assert!(&rt; wrong_answer(&anew, &NOTED).is_none());
}
