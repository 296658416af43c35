//! What is done again in a second run.

use super::beginning::{answer, unsettled};
use super::comparing::{same_count, same_text};
use super::counting::Updates;
use reuse_planner::Session;
use session_edits::Edit;
use session_kit::owners::in_session;
use std::alloc::Global;
use std::process::Abort;
use std::sync::Wait;
use std::thread::Threads;
use test_kit::texts::{LINES, SALES};
use view_pool::View;

/// Compares what a run by so many threads comes to, and how many updates there were.
fn updates<V: View + Send, R: Abort + Threads + Wait + Sync>(
    rt: &R,
    alloc: Global,
    session: &mut Session<V>,
    workers: usize,
    wanted: &str,
    count: usize,
) {
    let updates = Updates::new();
    same_text(rt, &answer(rt, alloc, session, workers, &updates), wanted);
    same_count(rt, updates.taken(), count);
}

const FIRST_LINES: &str = "result 131\ntotal 131\ntop 100 3\n";

/// Each of the three lines updates both reducers; then all three are answered by records, and then two of them.
fn less_is_done<V: View + Send, R: Abort + Threads + Wait + Sync>(
    rt: &R,
    alloc: Global,
    session: &mut Session<V>,
    workers: usize,
) {
    updates(rt, alloc, session, workers, FIRST_LINES, 6);
    updates(rt, alloc, session, workers, FIRST_LINES, 0);
    let put = Edit::Put {
        table: "sales",
        row: 2,
        values: vec![in alloc; 4, 7].expect(rt, "memory"),
    };
    assert!(rt; session.apply(alloc, &put).is_ok());
    updates(
        rt,
        alloc,
        session,
        workers,
        "result 138\ntotal 138\ntop 100 3\n",
        2,
    );
}

fn less_is_done_by<R: Abort + Threads + Wait + Sync>(rt: &R, alloc: Global, workers: usize) {
    let done = in_session(
        alloc,
        LINES,
        SALES,
        64,
        |session| less_is_done(rt, alloc, session, workers),
    );
    done.expect(rt, "a session");
}

#[test]
fn reruns_are_quiet(rt: HostRuntime) {
    less_is_done_by(&rt, rt.alloc(), 2);
    less_is_done_by(&rt, rt.alloc(), 4);
}

/// Records that are handed out answer nothing until they are put in, and then all.
fn is_kept_later<V: View + Send, R: Abort + Threads + Wait + Sync>(
    rt: &R,
    alloc: Global,
    session: &mut Session<V>,
) {
    let tally = unsettled(rt, alloc, session, FIRST_LINES);
    assert!(rt; session.records().is_empty());
    session.upheld();
    let pool = session.take_pool(alloc);
    assert!(rt; session.settle(pool, tally.into_records()).is_ok());
    updates(rt, alloc, session, 2, FIRST_LINES, 0);
}

#[test]
fn records_are_put_in_later(rt: HostRuntime) {
    let done = in_session(
        rt.alloc(),
        LINES,
        SALES,
        64,
        |session| is_kept_later(&rt, rt.alloc(), session),
    );
    done.expect(&rt, "a session");
}
