//! Reports that memory may be refused to: a run by two threads comes to what the report comes to, or to nothing, and then the session is as
//! it was but for kits. With ample memory none is refused: `tests/refused` refuses each allocation in turn.

use super::beginning::outcome;
use super::comparing::{counted, same_count, same_text};
use reuse_planner::Session;
use session_kit::owners::{in_session, in_session_of_lists};
use std::alloc::Global;
use std::process::Abort;
use std::sync::atomic::AtomicUsize;
use std::sync::{Arc, Wait};
use std::thread::Threads;
use test_kit::refusing::Refuses;
use test_kit::texts::{AFFINE, FIRST_LIST, LINES, MEMO_LIST, NESTED_READS, SALES, TWO_FAULTS};
use threaded_driver::NoGate;
use view_pool::View;

/// A program, how many kits, what a run comes to, and how many records there are behind it.
type Row = (&'static str, usize, &'static str, usize);

/// Programs with a list, of which the second has one kit, and the third recorded leaves.
const LISTS: [Row; 3] = [
    (FIRST_LIST, 3, "result 3\nseen 1 2 9\n", 0),
    (FIRST_LIST, 1, "result 3\nseen 1 2 9\n", 0),
    (MEMO_LIST, 16, "result 3\nseen 1 2 9\n", 2),
];

/// Other programs: maps that are folded; recorded procedures, one for each row and one that enters these; a fault, behind which one may
/// be met before it.
const OTHERS: [Row; 4] = [
    (AFFINE, 2, "result 0\nf 6 7\n", 0),
    (LINES, 64, "result 131\ntotal 131\ntop 100 3\n", 3),
    (NESTED_READS, 64, "result 131\ntotal 131\n", 4),
    (TWO_FAULTS, 2, "fault divide by zero in bad at 1\n", 0),
];

/// How many edits the tables have had, the least number of a revision that was never used, and how many records there are.
type State = (u64, u64, usize);

/// A session's state.
fn state_of<V: View>(session: &Session<V>) -> State {
    let (tables, program) = (session.tables(), session.checked());
    (
        tables.edit_number(),
        program.counter(),
        session.records().len(),
    )
}

/// What a run comes to with so many kits.
fn with_kits(kits: usize, wanted: &'static str) -> &'static str {
    if kits == 0 { "no kit\n" } else { wanted }
}

/// Whether a run was refused memory, by what it came to: then the session's state is that before. Else the run came to what it should.
fn was_refused<V: View>(
    rt: &impl Abort,
    session: &Session<V>,
    text: &str,
    before: State,
    wanted: &str,
) -> bool {
    if text == "no memory\n" {
        assert!(rt; state_of(session) == before);
        return true;
    }
    same_text(rt, text, wanted);
    false
}

/// Whether a run is refused memory: then nothing has changed but what kits there are. Else it comes to what it should, and to nothing
/// where no kit was left.
fn is_refused<V: View + Send, R: Abort + Threads + Wait + Sync>(
    rt: &R,
    alloc: Global,
    session: &mut Session<V>,
    row: Row,
) -> bool {
    let before = state_of(session);
    let (free, _) = session.kits();
    let text = outcome(rt, alloc, session, 2, &NoGate);
    let refused = was_refused(rt, session, &text, before, with_kits(free, row.2));
    assert!(rt; refused || free == 0 || session.records().len() == row.3);
    refused
}

/// Of two runs one at most is refused, where one allocation is. How many kits are home behind them.
fn one_is_done<V: View + Send, R: Abort + Threads + Wait + Sync>(
    rt: &R,
    alloc: Global,
    session: &mut Session<V>,
    row: Row,
) -> usize {
    let first = is_refused(rt, alloc, session, row);
    let second = is_refused(rt, alloc, session, row);
    assert!(rt; !first || !second);
    session.kits().0
}

/// Of two runs over lists one at most is refused, and each list that isn't home was dropped.
fn lost_ones_are_dropped<V: View + Send, R: Abort + Threads + Wait + Sync>(
    rt: &R,
    alloc: Global,
    session: &mut Session<V>,
    row: Row,
    drops: &AtomicUsize,
) {
    let home = one_is_done(rt, alloc, session, row);
    same_count(rt, counted(drops).wrapping_add(home), row.1);
}

/// Two such runs in a session, behind which each list was dropped once.
fn lists_are_dropped<R: Abort + Threads + Wait + Sync>(rt: &R, alloc: Global, row: Row) {
    let drops = Arc::new(alloc, AtomicUsize::new(0)).expect(rt, "memory");
    let done = in_session_of_lists(
        alloc,
        row.0,
        SALES,
        row.1,
        Refuses::Nothing,
        &drops,
        |session| lost_ones_are_dropped(rt, alloc, session, row, &drops),
    );
    done.expect(rt, "a session");
    same_count(rt, counted(&drops), row.1);
}

#[test]
fn lists_that_are_refused_memory(rt: HostRuntime) {
    for row in &LISTS {
        lists_are_dropped(&rt, rt.alloc(), *row);
    }
}

/// Two runs over plain views, of which one at most is refused.
fn others_are_done<R: Abort + Threads + Wait + Sync>(rt: &R, alloc: Global, row: Row) {
    let done = in_session(
        alloc,
        row.0,
        SALES,
        row.1,
        |session| one_is_done(rt, alloc, session, row),
    );
    done.expect(rt, "a session");
}

#[test]
fn others_that_are_refused_memory(rt: HostRuntime) {
    for row in &OTHERS {
        others_are_done(&rt, rt.alloc(), *row);
    }
}
