//! What the slow serial program makes of a session's program and tables, from scratch and by the session's records.

use super::fitting::are_fit;
use super::model::{self, Model};
use evaluation::note::Note;
use input_tables::Tables;
use instance_records::gift::Gift;
use linked_program::checked::Checked;
use meaning::tree::{Declaration, Program};
use monoid_laws::{Kind, Val};
use reducer_values::{copy_of, identity};
use reuse_planner::Session;
use serial_oracle::{
    Answer, Reading, Revision, Revisions, TableRows, from_scratch, needed_instances,
};
use std::alloc::Global;
use std::process::Abort;
use trace_report::answers::{push_fault, push_result, push_values};
use view_pool::View;
use worker_core::Record;

/// The text of an answer.
fn answer_text(rt: &impl Abort, alloc: Global, program: &Program, answer: &Answer) -> String {
    let mut text = String::new(alloc);
    match answer {
        Answer::Finished(value, values) => {
            push_result(&mut text, *value).expect(rt, "memory");
            push_values(alloc, &mut text, program, values).expect(rt, "memory");
        }
        Answer::Faulted(fault) => {
            let pushed = push_fault(&mut text, fault.kind, fault.procedure, fault.statement);
            pushed.expect(rt, "memory");
        }
    }
    text
}

/// The text of what a program comes to from scratch, on the model's tables.
pub fn text_of(rt: &impl Abort, alloc: Global, program: &Program, model: &Model) -> String {
    let sales = model.tables(rt, alloc);
    let Ok(answer) = from_scratch(alloc, program, &[sales]) else {
        panic!(rt; "memory");
    };
    answer_text(rt, alloc, program, &answer)
}

/// The text of what the model comes to from scratch.
pub fn scratch_text(rt: &impl Abort, alloc: Global, model: &Model) -> String {
    let program = model.program(rt, alloc);
    text_of(rt, alloc, &program, model)
}

/// The name of the procedure of that number.
pub fn procedure_name(declarations: &[Declaration], number: usize) -> &str {
    let mut left = number;
    for declaration in declarations {
        match declaration {
            Declaration::Procedure(procedure) => {
                if left == 0 {
                    return &procedure.name;
                }
                left -= 1;
            }
            Declaration::Reducer(_) => {}
        }
    }
    "none"
}

/// The revision number of the procedure of that number.
fn revision(
    rt: &impl Abort,
    alloc: Global,
    program: &Checked,
    procedure: usize,
    number: u64,
) -> Revision {
    let name = procedure_name(&program.program().declarations, procedure);
    let procedure = String::from_str(alloc, name).expect(rt, "memory");
    Revision { procedure, number }
}

/// These revision numbers, by the names of the procedures.
fn named(
    rt: &impl Abort,
    alloc: Global,
    program: &Checked,
    numbers: &[(usize, u64)],
) -> Vec<Revision> {
    let mut found = Vec::new(alloc);
    for entry in numbers {
        let revision = revision(rt, alloc, program, entry.0, entry.1);
        found.push(revision).expect(rt, "memory");
    }
    found
}

/// The revision numbers of a program.
fn revisions(rt: &impl Abort, alloc: Global, program: &Checked) -> Revisions {
    let mut numbers = Vec::new(alloc);
    for procedure in 0..program.program().declarations.len() {
        if let Some(number) = program.revision_at(procedure) {
            let revision = revision(rt, alloc, program, procedure, number);
            numbers.push(revision).expect(rt, "memory");
        }
    }
    Revisions {
        numbers,
        counter: program.counter(),
    }
}

/// The name of the table of that number.
fn table_name(rt: &impl Abort, alloc: Global, tables: &Tables, table: usize) -> String {
    if table < tables.count() {
        return model::text_of(rt, alloc, tables.name(table));
    }
    String::new(alloc)
}

/// The name of the column of that number in the table of that number.
fn column_name(
    rt: &impl Abort,
    alloc: Global,
    tables: &Tables,
    table: usize,
    column: usize,
) -> String {
    if table < tables.count() {
        if let Some(name) = tables.columns(table).get(column) {
            return model::text_of(rt, alloc, name);
        }
    }
    String::new(alloc)
}

/// A reading by names.
fn reading(rt: &impl Abort, alloc: Global, tables: &Tables, note: &Note) -> Reading {
    match note {
        Note::Cell {
            table,
            row,
            column,
            value,
        } => {
            let name = table_name(rt, alloc, tables, *table);
            let column = column_name(rt, alloc, tables, *table, *column);
            Reading::Cell(name, *row, column, *value)
        }
        Note::Has { table, row, found } => {
            Reading::Has(table_name(rt, alloc, tables, *table), *row, *found)
        }
        Note::Limit { table, value } => {
            Reading::Limit(table_name(rt, alloc, tables, *table), *value)
        }
        Note::Sum {
            table,
            column,
            value,
        } => {
            let name = table_name(rt, alloc, tables, *table);
            let column = column_name(rt, alloc, tables, *table, *column);
            Reading::Sum(name, column, *value)
        }
    }
}

/// What a record has read.
fn readings(rt: &impl Abort, alloc: Global, tables: &Tables, record: &Record) -> Vec<Reading> {
    let notes = record.reads().notes(alloc).expect(rt, "memory");
    let mut read = Vec::new(alloc);
    for note in &notes {
        let reading = reading(rt, alloc, tables, note);
        read.push(reading).expect(rt, "memory");
    }
    read
}

/// The value of the reducer of that number: the one that is given, or else its identity.
fn value_of(rt: &impl Abort, alloc: Global, number: usize, kind: Kind, given: &[Gift]) -> Val {
    for gift in given {
        if let Some(value) = value_given(rt, alloc, number, gift) {
            return value;
        }
    }
    identity(alloc, kind)
}

/// A copy of what the reducer of that number was given, if it was that one.
fn value_given(rt: &impl Abort, alloc: Global, to: usize, gift: &Gift) -> Option<Val> {
    match gift {
        Gift::Number { reducer, number } if usize::from(*reducer) == to => Some(Val::Int(*number)),
        Gift::Best {
            reducer,
            second,
            first,
        } if usize::from(*reducer) == to => Some(Val::Arg(Some((*first, i64::from(*second))))),
        Gift::Other(held) if held.0 == to => Some(copy_of(alloc, &held.1).expect(rt, "memory")),
        _ => None,
    }
}

/// A value of each reducer.
fn all_values(rt: &impl Abort, alloc: Global, kinds: &[Kind], given: &[Gift]) -> Vec<Val> {
    let mut values = Vec::new(alloc);
    for number in 0..kinds.len() {
        let value = value_of(rt, alloc, number, kinds[number], given);
        values.push(value).expect(rt, "memory");
    }
    values
}

/// A record by names.
fn known(
    rt: &impl Abort,
    alloc: Global,
    program: &Checked,
    tables: &Tables,
    record: &Record,
) -> serial_oracle::Record {
    let name = procedure_name(&program.program().declarations, record.procedure());
    serial_oracle::Record {
        of: String::from_str(alloc, name).expect(rt, "memory"),
        args: Vec::from_slice(alloc, record.arguments()).expect(rt, "memory"),
        value: record.value(),
        contribution: all_values(rt, alloc, program.kinds(), record.contribution()),
        read: readings(rt, alloc, tables, record),
        revisions: named(rt, alloc, program, record.entered()),
        height: record.height(),
    }
}

/// The records of a session by names.
fn all_known<V: View>(
    rt: &impl Abort,
    alloc: Global,
    session: &Session<V>,
) -> Vec<serial_oracle::Record> {
    let mut found = Vec::new(alloc);
    for record in session.records().as_slice() {
        let known = known(rt, alloc, session.checked(), session.tables(), record);
        found.push(known).expect(rt, "memory");
    }
    found
}

/// What the model comes to by the session's records.
#[derive(Drop)]
pub struct Needed {
    pub text: String,
    /// How many memo instances are executed.
    pub executed: usize,
    /// How many are answered by records.
    pub reused: usize,
}

/// What a program comes to where these records answer memo instances.
fn needed_by(
    rt: &impl Abort,
    alloc: Global,
    program: &Program,
    tables: &[TableRows],
    revisions: &Revisions,
    records: &[serial_oracle::Record],
) -> Needed {
    assert!(rt; are_fit(alloc, program, records));
    let Ok(after) = needed_instances(alloc, program, revisions, tables, records) else {
        panic!(rt; "memory");
    };
    Needed {
        text: answer_text(rt, alloc, program, &after.answer),
        executed: after.executed.len(),
        reused: after.reused.len(),
    }
}

/// What the model comes to where the session's records answer memo instances.
pub fn needs_of<V: View>(
    rt: &impl Abort,
    alloc: Global,
    session: &Session<V>,
    model: &Model,
) -> Needed {
    let program = model.program(rt, alloc);
    let tables = [model.tables(rt, alloc)];
    let revisions = revisions(rt, alloc, session.checked());
    let records = all_known(rt, alloc, session);
    needed_by(rt, alloc, &program, &tables, &revisions, &records)
}
