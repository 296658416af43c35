//! How many readings and revisions of records don't hold after edits: by hand, and beside a slow count of each record.

use super::slow::procedure_name;
use evaluation::note::Note;
use input_tables::Tables;
use instance_records::key::Key;
use instance_records::record::Record;
use linked_program::checked::Checked;
use reuse_planner::Session;
use session_kit::owners::in_session;
use session_kit::scripts::played;
use std::alloc::Global;
use std::process::Abort;
use test_kit::texts::{LINES, NESTED_READS, SALES};
use view_pool::View;

/// Whether the tables hold what was read.
fn holds(tables: &Tables, note: &Note) -> bool {
    match note {
        Note::Cell {
            table,
            row,
            column,
            value,
        } => tables.cell(*table, *row, *column) == Some(*value),
        Note::Has { table, row, found } => tables.has(*table, *row) == *found,
        Note::Limit { table, value } => tables.limit(*table) == *value,
        Note::Sum {
            table,
            column,
            value,
        } => tables.sum(*table, *column) == *value,
    }
}

/// How many different ones of these the tables don't hold.
fn lapsed(tables: &Tables, notes: &[Note]) -> usize {
    let mut count: usize = 0;
    for place in 0..notes.len() {
        let note = notes[place];
        if !holds(tables, &note) && !notes[place + 1..].contains(&note) {
            count = count.saturating_add(1);
        }
    }
    count
}

/// How many procedures have another revision number; no record names one twice.
fn outdated(program: &Checked, entered: &[(usize, u64)]) -> usize {
    let mut count: usize = 0;
    for entry in entered {
        if program.revision_at(entry.0) != Some(entry.1) {
            count = count.saturating_add(1);
        }
    }
    count
}

/// The call of that procedure with these arguments.
fn call_of(rt: &impl Abort, alloc: Global, name: &str, arguments: &[i64]) -> Key {
    let name = String::from_str(alloc, name).expect(rt, "memory");
    let arguments = Vec::from_slice(alloc, arguments).expect(rt, "memory");
    Key::new(name, arguments)
}

/// The number of the record of that procedure with these arguments.
fn stale<V: View>(
    rt: &impl Abort,
    alloc: Global,
    session: &Session<V>,
    name: &str,
    arguments: &[i64],
) -> Option<usize> {
    session.stale(&call_of(rt, alloc, name, arguments))
}

/// Compares two numbers.
fn same_number(rt: &impl Abort, found: Option<usize>, wanted: Option<usize>) {
    assert_eq!(rt; found, wanted);
}

/// The slow count of a record.
fn counted<V: View>(
    rt: &impl Abort,
    alloc: Global,
    session: &Session<V>,
    record: &Record,
) -> usize {
    let notes = record.reads().notes(alloc).expect(rt, "memory");
    let revisions = outdated(session.checked(), record.entered());
    lapsed(session.tables(), &notes).saturating_add(revisions)
}

/// Compares the number of a record with the slow count.
fn compare<V: View>(rt: &impl Abort, alloc: Global, session: &Session<V>, record: &Record) {
    let wanted = counted(rt, alloc, session, record);
    let name = procedure_name(
        &session.checked().program().declarations,
        record.procedure(),
    );
    same_number(
        rt,
        stale(rt, alloc, session, name, record.arguments()),
        Some(wanted),
    );
}

/// Compares the numbers of all records with slow counts.
pub fn compare_all<V: View>(rt: &impl Abort, alloc: Global, session: &Session<V>) {
    for record in session.records().as_slice() {
        compare(rt, alloc, session, record);
    }
}

/// What `line` came to at the second row, where its record would answer a call of `main`.
fn value<V: View>(rt: &impl Abort, alloc: Global, session: &Session<V>) -> Option<i64> {
    match session.lookup(&call_of(rt, alloc, "line", &[2]), 2) {
        Some(record) => Some(record.value()),
        None => None,
    }
}

/// Plays lines of a script.
fn play<V: View>(rt: &impl Abort, alloc: Global, session: &mut Session<V>, script: &str) {
    played(alloc, session, script.as_bytes()).expect(rt, "memory");
}

/// A script, the numbers of `line(1)`, `line(2)`, `line(3)` and `all()` behind it, and what `line(2)` came to, where its record would
/// answer.
type ByHand = (&'static str, [Option<usize>; 4], Option<i64>);

/// Nothing, a run and edits of row 2, and a define of `line`.
const LINES_BY_HAND: [ByHand; 5] = [
    ("", [None, None, None, None], None),
    (
        "run\nput sales 2 4 7\n",
        [Some(0), Some(1), Some(0), None],
        None,
    ),
    ("put sales 2 4 8\n", [Some(0), Some(2), Some(0), None], None),
    (
        "put sales 2 3 7\n",
        [Some(0), Some(0), Some(0), None],
        Some(21),
    ),
    (
        "define\nmemo proc line(r) { return r; }\nend\n",
        [Some(1), Some(1), Some(1), None],
        None,
    ),
];

/// An edit behind a run of `all()`, which has read what its lines have and the limit; and another one.
const PUT_BY_HAND: [ByHand; 1] = [(
    "run\nput sales 5 1 1\n",
    [Some(0), Some(0), Some(0), Some(1)],
    Some(0),
)];

const DELETED_BY_HAND: [ByHand; 1] = [(
    "run\ndel sales 2\n",
    [Some(0), Some(3), Some(0), Some(3)],
    None,
)];

/// Compares the number of the record of `line` at a row.
fn is_stale_at<V: View>(
    rt: &impl Abort,
    alloc: Global,
    session: &Session<V>,
    row: i64,
    wanted: Option<usize>,
) {
    same_number(rt, stale(rt, alloc, session, "line", &[row]), wanted);
}

/// Compares what `line` came to at the second row.
fn is_value<V: View>(rt: &impl Abort, alloc: Global, session: &Session<V>, wanted: Option<i64>) {
    assert!(rt; value(rt, alloc, session) == wanted);
}

/// Plays a script, and compares the numbers behind it.
fn by_hand<V: View>(rt: &impl Abort, alloc: Global, session: &mut Session<V>, step: ByHand) {
    let (script, numbers, came) = step;
    play(rt, alloc, session, script);
    is_stale_at(rt, alloc, session, 1, numbers[0]);
    is_stale_at(rt, alloc, session, 2, numbers[1]);
    is_stale_at(rt, alloc, session, 3, numbers[2]);
    same_number(rt, stale(rt, alloc, session, "all", &[]), numbers[3]);
    is_value(rt, alloc, session, came);
}

/// Plays scripts one after another.
fn all_by_hand<V: View>(
    rt: &impl Abort,
    alloc: Global,
    session: &mut Session<V>,
    steps: &[ByHand],
) {
    for step in steps {
        by_hand(rt, alloc, session, *step);
    }
}

/// Plays scripts in a new session.
fn in_new_session(rt: &impl Abort, alloc: Global, program: &str, steps: &[ByHand]) {
    let played = in_session(
        alloc,
        program,
        SALES,
        64,
        |session| all_by_hand(rt, alloc, session, steps),
    );
    played.expect(rt, "a session");
}

#[test]
fn numbers_of_stale_readings(rt: HostRuntime) {
    in_new_session(&rt, rt.alloc(), LINES, &LINES_BY_HAND);
    in_new_session(&rt, rt.alloc(), NESTED_READS, &PUT_BY_HAND);
    in_new_session(&rt, rt.alloc(), NESTED_READS, &DELETED_BY_HAND);
}
