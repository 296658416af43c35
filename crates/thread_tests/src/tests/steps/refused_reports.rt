//! Reports that memory may be refused to: a run comes to what the report comes to, or to nothing, and then the session is as it was.
//! With ample memory none is refused: `tests/refused` refuses each allocation in turn.

use super::refused::{is_so, state_of};
use super::words::steps;
use crate::tests::comparing::{counted, same_count};
use reuse_planner::{Session, run_session};
use session_kit::answers::answer_text;
use session_kit::owners::{in_session, in_session_of_lists};
use std::alloc::Global;
use std::process::Abort;
use std::sync::Arc;
use std::sync::atomic::AtomicUsize;
use test_kit::refusing::Refuses;
use test_kit::texts::{AFFINE, FIRST_LIST, MEMO_LIST, NESTED_READS, SALES, TWO_FAULTS};
use view_pool::View;

/// A program, how many workers and kits, the line of a run, and what the run comes to.
type Row = (&'static str, usize, usize, &'static str, &'static str);

/// Programs with a list.
const LISTS: [Row; 3] = [
    // Two steals.
    (
        FIRST_LIST,
        3,
        3,
        "W0* P0 S10 W1* P1 S21 W2* L2 W1* L1 F2@2 W2* L2 W0* L0 F0@1 W0* L0",
        "result 3\nseen 1 2 9\n",
    ),
    // One kit.
    (
        FIRST_LIST,
        2,
        1,
        "W0* P0 S10 W0* O0 W0* P0 S10 W0* O0 W0* L0",
        "result 3\nseen 1 2 9\n",
    ),
    // Recorded leaves.
    (
        MEMO_LIST,
        2,
        4,
        "W0* P0 S10 W1* P1 W1* O1 W1* L1 W0* L0 F0@1 W0* L0",
        "result 3\nseen 1 2 9\n",
    ),
];

/// Other programs.
const OTHERS: [Row; 3] = [
    // Maps are folded.
    (
        AFFINE,
        2,
        2,
        "W0* P0 S10 W1* L1 W0* L0 F0@1 W0* L0",
        "result 0\nf 6 7\n",
    ),
    // A recorded procedure enters recorded ones, which read tables, and its second half is stolen.
    (
        NESTED_READS,
        2,
        8,
        "W0* P0 S10 W0* L0 W1* I1 W1* L1 F0@1.1.1 W0* L0",
        "result 131\ntotal 131\n",
    ),
    // In time the missing row comes first.
    (
        TWO_FAULTS,
        2,
        2,
        "W0* P0 S10 W1* L1 W0* L0 F0@1 L0",
        "fault divide by zero in bad at 1\n",
    ),
];

/// What a run by the line of a row comes to.
fn text_of<V: View>(rt: &impl Abort, alloc: Global, session: &mut Session<V>, row: Row) -> String {
    let steps = steps(rt, alloc, row.3);
    let answer = run_session(alloc, session, row.1, &steps);
    answer_text(alloc, session.checked(), &answer).expect(rt, "memory")
}

/// Whether a run was refused memory, by what it came to: it doesn't end where a push was refused.
fn was_refused<V: View>(session: &Session<V>, text: &str) -> bool {
    text == "no memory\n" || text == "unfinished\n" && session.last_inlined() > 0
}

/// Whether a run is refused memory: then the session is as before. Else it comes to what it should.
fn is_refused<V: View>(rt: &impl Abort, alloc: Global, session: &mut Session<V>, row: Row) -> bool {
    let before = state_of(rt, alloc, session);
    let text = text_of(rt, alloc, session, row);
    if text.as_str() != row.4 {
        assert!(rt; was_refused(session, &text));
        is_so(rt, alloc, session, &before);
        return true;
    }
    false
}

/// Of two runs one at most is refused, where one allocation is.
fn one_is_done<V: View>(rt: &impl Abort, alloc: Global, session: &mut Session<V>, row: Row) {
    let first = is_refused(rt, alloc, session, row);
    let second = is_refused(rt, alloc, session, row);
    assert!(rt; !first || !second);
}

/// Of two runs over lists one at most is refused, and each list is dropped once.
fn lists_are_dropped(rt: &impl Abort, alloc: Global, row: Row) {
    let drops = Arc::new(alloc, AtomicUsize::new(0)).expect(rt, "memory");
    let done = in_session_of_lists(
        alloc,
        row.0,
        SALES,
        row.2,
        Refuses::Nothing,
        &drops,
        |session| one_is_done(rt, alloc, session, row),
    );
    done.expect(rt, "a session");
    same_count(rt, counted(&drops), row.2);
}

#[test]
fn lists_that_are_refused_memory(rt: HostRuntime) {
    for row in &LISTS {
        lists_are_dropped(&rt, rt.alloc(), *row);
    }
}

/// Of two runs over plain views one at most is refused.
fn others_are_done(rt: &impl Abort, alloc: Global, row: Row) {
    let done = in_session(
        alloc,
        row.0,
        SALES,
        row.2,
        |session| one_is_done(rt, alloc, session, row),
    );
    done.expect(rt, "a session");
}

#[test]
fn others_that_are_refused_memory(rt: HostRuntime) {
    for row in &OTHERS {
        others_are_done(&rt, rt.alloc(), *row);
    }
}
