//! Runs of a session by lines of steps, and commands.

use super::words::steps;
use crate::tests::comparing::{same_count, same_text, same_text_of};
use reuse_planner::{Command, Session, play_session, run_session};
use session_edits::Edit;
use session_kit::answers::counted_text;
use session_kit::owners::in_session;
use session_kit::scripts::Answers;
use std::alloc::Global;
use std::process::Abort;
use test_kit::texts::{FIRST, FIRST_LIST, MEMO_LIST, SALES};
use view_pool::View;

/// One worker runs both children.
const ALONE: &str = "W0* P0 W0* O0 W0* P0 W0* O0 W0* L0";

/// The first child is run by worker 0, what follows it by worker 1.
const STOLEN: &str = "W0* P0 S10 W1* P1 W1* O1 W1* L1 W0* L0 F0@1 W0* L0";

/// What a run by the steps of a line comes to, with its counts.
fn led<V: View>(
    rt: &impl Abort,
    alloc: Global,
    session: &mut Session<V>,
    workers: usize,
    line: &str,
) -> String {
    let steps = steps(rt, alloc, line);
    let answer = run_session(alloc, session, workers, &steps);
    same_count(rt, session.last_inlined(), 0);
    counted_text(alloc, session.checked(), &answer).expect(rt, "memory")
}

/// Compares what a run by the steps of a line comes to.
fn comes_to<V: View>(
    rt: &impl Abort,
    alloc: Global,
    session: &mut Session<V>,
    workers: usize,
    line: &str,
    wanted: &str,
) {
    let came = led(rt, alloc, session, workers, line);
    same_text_of(rt, &came, wanted, line);
}

/// A program, how many workers and kits, a line with what a run by it comes to, and a second line with what the next run comes to.
type Row = (
    &'static str,
    usize,
    usize,
    &'static str,
    &'static str,
    &'static str,
    &'static str,
);

const LIST: &str = "result 3\nseen 1 2 9\n0 0 0; ";

const NOT_OVER: &str = "unfinished\n";

const BEGUN: &str = "W0* P0 W0*";

const ROWS: [Row; 9] = [
    (FIRST_LIST, 1, 1, ALONE, LIST, ALONE, LIST),
    (FIRST_LIST, 2, 2, STOLEN, LIST, STOLEN, LIST),
    // Without a kit the steal is passed over, and with it what would follow from it.
    (FIRST_LIST, 2, 1, STOLEN, NOT_OVER, STOLEN, NOT_OVER),
    // A run in the midst is given up, and leaves its kit for the next one.
    (FIRST_LIST, 1, 1, BEGUN, NOT_OVER, BEGUN, NOT_OVER),
    (FIRST_LIST, 1, 1, "", NOT_OVER, "", NOT_OVER),
    (FIRST_LIST, 1, 1, BEGUN, NOT_OVER, ALONE, LIST),
    (
        FIRST,
        1,
        1,
        BEGUN,
        NOT_OVER,
        ALONE,
        "result 3\ntotal 12\n0 0 0; ",
    ),
    // The second run has both leaves answered by records.
    (
        MEMO_LIST,
        1,
        2,
        ALONE,
        "result 3\nseen 1 2 9\n2 0 0; ",
        ALONE,
        "result 3\nseen 1 2 9\n0 2 0; ",
    ),
    (
        MEMO_LIST,
        1,
        1,
        ALONE,
        "result 3\nseen 1 2 9\n2 0 2; ",
        ALONE,
        "result 3\nseen 1 2 9\n2 0 2; ",
    ),
];

/// So many kits are there, and all are free.
fn are_free<V: View>(rt: &impl Abort, session: &Session<V>, count: usize) {
    let (free, total) = session.kits();
    same_count(rt, free, count);
    same_count(rt, total, count);
}

/// Compares what two runs come to; after each all kits are free.
fn come_to<V: View>(rt: &impl Abort, alloc: Global, session: &mut Session<V>, row: Row) {
    let (_, workers, count, first, found, second, found_next) = row;
    comes_to(rt, alloc, session, workers, first, found);
    are_free(rt, session, count);
    comes_to(rt, alloc, session, workers, second, found_next);
    are_free(rt, session, count);
}

fn two_runs(rt: &impl Abort, alloc: Global, row: Row) {
    let done = in_session(
        alloc,
        row.0,
        SALES,
        row.2,
        |session| come_to(rt, alloc, session, row),
    );
    done.expect(rt, "a session");
}

#[test]
fn runs_by_steps(rt: HostRuntime) {
    for row in &ROWS {
        two_runs(&rt, rt.alloc(), *row);
    }
}

const OTHER_LEAF: &[u8] = b"proc leaf(v) { update seen v + 10; return v; }";

/// A run by the steps of a line, as a command.
fn run_by(rt: &impl Abort, alloc: Global, workers: usize, line: &str) -> Command<'static> {
    let steps = steps(rt, alloc, line);
    Command::Run { workers, steps }
}

/// Another row in the place of the second one.
fn put_row(rt: &impl Abort, alloc: Global) -> Command<'static> {
    Command::Edit(Edit::Put {
        table: "sales",
        row: 2,
        values: vec![in alloc; 4, 7].expect(rt, "memory"),
    })
}

const DELETE: Edit<'static> = Edit::Delete {
    table: "stock",
    row: 1,
};

/// Runs with edits between them, of which one is refused.
fn some_commands(rt: &impl Abort, alloc: Global) -> Vec<Command<'static>> {
    vec![in alloc;
        run_by(rt, alloc, 1, ALONE),
        put_row(rt, alloc),
        Command::Edit(Edit::Define(OTHER_LEAF)),
        run_by(rt, alloc, 2, STOLEN),
        Command::Edit(DELETE),
        run_by(rt, alloc, 2, "W0* P0"),
    ]
    .expect(rt, "memory")
}

/// What commands are answered, without counts.
fn played_lines<V: View>(
    rt: &impl Abort,
    alloc: Global,
    session: &mut Session<V>,
    commands: &[Command<'_>],
) -> String {
    let given = play_session(alloc, session, commands).expect(rt, "memory");
    let mut answers = Answers::none(alloc);
    for answer in &given {
        let noted = answers.note(alloc, session.checked(), answer);
        noted.expect(rt, "memory");
    }
    answers.lines
}

fn are_answered<V: View>(rt: &impl Abort, alloc: Global, session: &mut Session<V>) {
    let commands = some_commands(rt, alloc);
    let lines = played_lines(rt, alloc, session, &commands);
    let wanted = "result 3\nseen 1 2 9\nok\nok\nresult 3\nseen 11 12 9\nrefused E4\nunfinished\n";
    same_text(rt, &lines, wanted);
    same_count(rt, session.tables().edit_number() as usize, 1);
}

#[test]
fn commands_one_after_another(rt: HostRuntime) {
    let done = in_session(
        rt.alloc(),
        FIRST_LIST,
        SALES,
        2,
        |session| are_answered(&rt, rt.alloc(), session),
    );
    done.expect(&rt, "a session");
}
