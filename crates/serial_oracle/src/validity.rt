//! Whether a record answers an instance.
ghost use Rattle.std.specs.Prelude.{◌≡◌, map, string_bytes, slice_get, Some, IfSome, option_map};
ghost use Rattle.meaning.specs.Every.{every};
ghost use Rattle.meaning.specs.Records.{if_valid, record_of};
ghost use Rattle.meaning.specs.Records.{agrees as agrees_of, same_number as same_number_of, same_bool as same_bool_of};
ghost use Rattle.meaning.specs.Records.{is_current as is_current_of, holds_now as holds_now_of, is_valid as is_valid_of};
ghost use Rattle.meaning.specs.Records.{same_args as same_args_of};
ghost use Rattle.serial_oracle.specs.Listing.{tables_plain};
ghost use Rattle.serial_oracle.specs.Keeping.{kept, reading_plain, revision, revised_in, tables_in, records_in};

use crate::lookup;
use crate::records::{Reading, Record, Revision};
use crate::scope::Scope;
use crate::tables::TableRows;
use meaning::DEPTH_LIMIT;

/// A record, with its place among all.
#[derive(Clone, Copy)]
pub struct Found<'p> {
    pub place: usize,
    pub known: &'p Record,
}

/// Whether a cell holds a number.
fn same_number(cell: Option<i64>, value: i64) -> bool
    ensures { result ≡ same_number_of cell value }
{
    match cell {
        None => false,
        Some(held) => held == value,
    }
}

/// Whether both are true or neither.
fn same_bool(left: bool, right: bool) -> bool
    ensures { result ≡ same_bool_of left right }
{
    if left { right } else { !right }
}

/// Whether the tables hold what was read.
fn agrees(tables: &[TableRows], reading: &Reading) -> bool
    ensures { result ≡ agrees_of (tables_plain tables.now) (reading_plain reading.now) }
{
    match reading {
        Reading::Cell(table, row, column, value) => {
            same_number(lookup::cell(tables, table, *row, column), *value)
        }
        Reading::Has(table, row, held) => same_bool(lookup::has(tables, table, *row), *held),
        Reading::Limit(table, value) => lookup::limit(tables, table) == *value,
        Reading::Sum(table, column, value) => lookup::sum(tables, table, column) == *value,
    }
}

/// Whether the tables hold all that was read.
fn all_agree(tables: &[TableRows], readings: &[Reading]) -> bool
    ensures { result ≡ every (agrees_of (tables_plain tables.now)) (map reading_plain readings.now) }
{
    for reading in readings {
        if !agrees(tables, reading) {
            return false;
        }
    }
    true
}

/// Whether a procedure has this revision number.
fn is_current(numbers: &[Revision], wanted: &Revision) -> bool
    ensures { result ≡ is_current_of (map revision numbers.now) (revision wanted.now) }
{
    for number in numbers {
        if number.procedure.as_str() == wanted.procedure.as_str() {
            return number.number == wanted.number;
        }
    }
    false
}

/// Whether the procedures have these revision numbers.
fn are_current(numbers: &[Revision], wanted: &[Revision]) -> bool
    ensures { result ≡ every (is_current_of (map revision numbers.now)) (map revision wanted.now) }
{
    for one in wanted {
        if !is_current(numbers, one) {
            return false;
        }
    }
    true
}

/// Whether all that a record read and entered is as it was.
fn holds_now(scope: &Scope, known: &Record) -> bool
    ensures { result ≡ holds_now_of (revised_in scope.now) (tables_in scope.now) (kept known.now) }
{
    all_agree(scope.tables, &known.read) && are_current(&scope.revisions.numbers, &known.revisions)
}

/// Whether a record answers an instance at a depth.
fn is_valid(scope: &Scope, depth: u32, known: &Record) -> bool
    ensures { result ≡ is_valid_of (revised_in scope.now) (tables_in scope.now) depth (kept known.now) }
{
    holds_now(scope, known)
        && u64::from(depth) + u64::from(known.height) <= u64::from(DEPTH_LIMIT) + 1
}

/// Whether both are the same numbers.
fn same_args(left: &[i64], right: &[i64]) -> bool
    ensures { result ≡ same_args_of left.now right.now }
{
    match left {
        [] => right.is_empty(),
        [x, left @ ..] => match right {
            [] => false,
            [y, right @ ..] => *x == *y && same_args(left, right),
        },
    }
}

/// The first record of a name and arguments.
fn find_record<'p>(records: &'p [Record], name: &str, args: &[i64]) -> Option<Found<'p>>
    ensures answer { option_map (λ f. kept f.known.now) result ≡ record_of (map kept records.now) name.now args.now }
    ensures place { IfSome result (λ f. slice_get (map kept records.now) f.place ≡ Some (kept f.known.now)) }
{
    for (place, known) in records.iter().enumerate() {
        if known.of.as_str() == name && same_args(&known.args, args) {
            return Some(Found { place, known });
        }
    }
    None
}

/// The record that answers an instance at a depth, if there is one.
pub(crate) fn valid_record<'p, 's>(
    scope: &Scope<'p, 's>,
    depth: u32,
    name: &str,
    args: &[i64],
) -> Option<Found<'s>>
    ensures answer { option_map (λ f. kept f.known.now) result
        ≡ if_valid (revised_in scope.now) (tables_in scope.now) depth
        (record_of (records_in scope.now) name.now args.now) }
    ensures place { IfSome result (λ f. slice_get (records_in scope.now) f.place
        ≡ Some (kept f.known.now)) }
{
    match find_record(scope.records, name, args) {
        None => None,
        Some(found) => {
            if is_valid(scope, depth, found.known) {
                Some(found)
            } else {
                None
            }
        }
    }
}
