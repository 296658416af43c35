//! Calls that memory is refused for leave the session as it was, and are done when they are tried again. With ample memory none is
//! refused: what refuses each allocation in turn is run over the built tests.

use input_tables::Tables;
use linked_program::checked::Checked;
use reuse_planner::{Answer, ApplyError, Command, Session, play_session, run_session};
use session_kit::owners::in_session;
use session_kit::scripts::session_commands;
use std::alloc::{AllocError, Global};
use std::fmt::Write;
use std::process::Abort;
use test_kit::texts::{LINES, SALES};
use view_pool::View;
use worker_core::{Record, RunAnswer};

/// Writes a cell, or that there is none.
fn push_cell(text: &mut String, cell: Option<i64>) -> Result<(), AllocError> {
    match cell {
        Some(value) => write!(text, " {value}"),
        None => write!(text, " -"),
    }
}

/// Writes the cells of a row.
fn push_row(text: &mut String, tables: &Tables, row: i64) -> Result<(), AllocError> {
    push_cell(text, tables.cell(0, row, 0))?;
    push_cell(text, tables.cell(0, row, 1))
}

/// Writes how many edits the tables have had, and of the sales the limit, the sums and the cells.
fn push_tables(text: &mut String, tables: &Tables) -> Result<(), AllocError> {
    let (edits, limit) = (tables.edit_number(), tables.limit(0));
    let (quantities, prices) = (tables.sum(0, 0), tables.sum(0, 1));
    write!(
        text,
        "{edits} edits, limit {limit}, sums {quantities} {prices}:"
    )?;
    push_row(text, tables, 1)?;
    push_row(text, tables, 2)?;
    push_row(text, tables, 3)
}

/// Writes the revision number of `line`, and the least one that was never used.
fn push_program(text: &mut String, program: &Checked) -> Result<(), AllocError> {
    let counter = program.counter();
    match program.revision("line") {
        Some(number) => write!(text, "\nline {number} of {counter}"),
        None => write!(text, "\nno line of {counter}"),
    }
}

/// Writes a record's procedure, its arguments and its value.
fn push_record(text: &mut String, record: &Record) -> Result<(), AllocError> {
    let (procedure, value) = (record.procedure(), record.value());
    write!(text, "\n{procedure}:")?;
    for argument in record.arguments() {
        write!(text, " {argument}")?;
    }
    write!(text, " is {value}")
}

/// Writes what a session holds, as far as it can be read, and how many of its kits are free.
fn push_state<V: View>(text: &mut String, session: &Session<V>) -> Result<(), AllocError> {
    push_tables(text, session.tables())?;
    push_program(text, session.checked())?;
    for record in session.records().as_slice() {
        push_record(text, record)?;
    }
    let (free, total) = session.kits();
    write!(text, "\n{free} of {total} kits")
}

/// What a session holds, as a text.
pub fn state_of<V: View>(rt: &impl Abort, alloc: Global, session: &Session<V>) -> String {
    let mut text = String::new(alloc);
    push_state(&mut text, session).expect(rt, "memory");
    text
}

/// Compares what a session holds.
pub fn is_so<V: View>(rt: &impl Abort, alloc: Global, session: &Session<V>, wanted: &str) {
    let found = state_of(rt, alloc, session);
    assert_eq!(rt; found.as_str(), wanted);
}

/// Whether an edit was refused for want of memory.
fn is_edit_refused(edited: &Result<(), ApplyError>) -> bool {
    matches!(edited, Err(ApplyError::NoMemory))
}

/// Whether a run was refused for want of memory.
fn is_run_refused(came: &RunAnswer) -> bool {
    matches!(came, RunAnswer::NoMemory)
}

/// Whether a command was refused for want of memory.
fn is_refused(answer: &Answer) -> bool {
    match answer {
        Answer::Edit(edited) => is_edit_refused(edited),
        Answer::Run(came) => is_run_refused(came),
    }
}

/// Makes the call that a command names: whether memory was refused for it.
fn is_one_refused<V: View>(alloc: Global, session: &mut Session<V>, command: &Command<'_>) -> bool {
    match command {
        Command::Edit(edit) => is_edit_refused(&session.apply(alloc, edit)),
        Command::Run { workers, steps } => {
            is_run_refused(&run_session(alloc, session, *workers, steps))
        }
    }
}

/// Makes the calls that commands name, until memory is refused for one: whether it was.
fn is_call_refused<V: View>(
    alloc: Global,
    session: &mut Session<V>,
    commands: &[Command<'_>],
) -> bool {
    for command in commands {
        if is_one_refused(alloc, session, command) {
            return true;
        }
    }
    false
}

/// Whether memory was refused for one of the commands that were answered so.
fn is_any_refused(answers: &[Answer]) -> bool {
    for answer in answers {
        if is_refused(answer) {
            return true;
        }
    }
    false
}

/// Plays commands: whether memory was refused for their answers, or for one of them.
fn is_play_refused<V: View>(
    alloc: Global,
    session: &mut Session<V>,
    commands: &[Command<'_>],
) -> bool {
    match play_session(alloc, session, commands) {
        Ok(answers) => is_any_refused(&answers),
        Err(_) => true,
    }
}

/// Does commands by the calls that they name, or has them played: whether memory was refused.
fn lacks_memory<V: View>(
    alloc: Global,
    session: &mut Session<V>,
    commands: &[Command<'_>],
    are_played: bool,
) -> bool {
    if are_played {
        is_play_refused(alloc, session, commands)
    } else {
        is_call_refused(alloc, session, commands)
    }
}

/// Does one command. Where memory is refused for it the session is as it was, and the command is done when it is tried again.
fn is_done<V: View>(
    rt: &impl Abort,
    alloc: Global,
    session: &mut Session<V>,
    one: &[Command<'_>],
    is_played: bool,
) {
    let before = state_of(rt, alloc, session);
    if lacks_memory(alloc, session, one, is_played) {
        is_so(rt, alloc, session, &before);
        assert!(rt; !lacks_memory(alloc, session, one, is_played));
    }
}

/// Edits of each kind, each between two runs but the delete, which goes with the define.
const SCRIPT: &[u8] = b"run
put sales 2 4 7
run
define
memo proc line(r) { v = sales[r].qty; update total v; return v; }
end
del sales 3
run
";

/// The third record is one of the first run.
const AFTER: &str = "2 edits, limit 3, sums 6 12: 2 5 4 7 - -
line 2 of 3
0: 1 is 2
0: 2 is 4
0: 3 is 100
3 of 3 kits";

/// Does commands, one after another.
fn all_done<V: View>(
    rt: &impl Abort,
    alloc: Global,
    session: &mut Session<V>,
    commands: &[Command<'_>],
    are_played: bool,
) {
    for one in commands.chunks(1) {
        is_done(rt, alloc, session, one, are_played);
    }
}

/// Does the script.
fn are_done<V: View>(rt: &impl Abort, alloc: Global, session: &mut Session<V>, are_played: bool) {
    let commands = session_commands(alloc, SCRIPT).expect(rt, "memory");
    all_done(rt, alloc, session, &commands, are_played);
}

/// Compares what the script leaves: whatever was refused, the commands have been done.
fn is_left<V: View>(rt: &impl Abort, alloc: Global, session: &mut Session<V>, are_played: bool) {
    are_done(rt, alloc, session, are_played);
    is_so(rt, alloc, session, AFTER);
}

/// Compares it in a new session.
fn is_left_so(rt: &impl Abort, alloc: Global, are_played: bool) {
    let done = in_session(
        alloc,
        LINES,
        SALES,
        3,
        |session| is_left(rt, alloc, session, are_played),
    );
    done.expect(rt, "a session");
}

#[test]
fn calls_that_are_refused(rt: HostRuntime) {
    is_left_so(&rt, rt.alloc(), false);
}

/// Memory may be refused for the answers too, before any command is done.
#[test]
fn commands_that_are_refused(rt: HostRuntime) {
    is_left_so(&rt, rt.alloc(), true);
}
