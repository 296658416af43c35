//! A run by threads that gives up at a fold, and what becomes of the views of its strands.

use super::beginning::outcome;
use super::comparing::{counted, same_count, same_text};
use super::meeting::Meeting;
use reuse_planner::Session;
use session_kit::owners::in_session_of_lists;
use std::alloc::Global;
use std::process::Abort;
use std::sync::atomic::AtomicUsize;
use std::sync::{Arc, Wait};
use std::thread::Threads;
use test_kit::refusing::Refuses;
use test_kit::texts::{FIRST_LIST, SALES};
use view_pool::View;

/// Each of two strands has a number in its view when they are folded. The fold is refused, and the run gives up: how many kits are
/// home then.
fn gives_up<V: View + Send, R: Abort + Threads + Wait + Sync>(
    rt: &R,
    alloc: Global,
    session: &mut Session<V>,
    meeting: &Meeting,
) -> usize {
    let text = outcome(rt, alloc, session, 2, meeting);
    same_text(rt, &text, "no memory\n");
    session.kits().0
}

/// Compares the drops: whenever the run gives up, a view that isn't given back was dropped.
fn are_dropped<V: View + Send, R: Abort + Threads + Wait + Sync>(
    rt: &R,
    alloc: Global,
    session: &mut Session<V>,
    drops: &AtomicUsize,
) {
    let meeting = Meeting::of(alloc, 2).expect(rt, "memory");
    let home = gives_up(rt, alloc, session, &meeting);
    same_count(rt, counted(drops).wrapping_add(home), 2);
    assert!(rt; meeting.was_held() && home == 0);
}

/// Both views are lost with the run; the session drops what is left, so each is dropped once.
#[test]
fn views_of_a_refused_fold(rt: HostRuntime) {
    let drops = Arc::new(rt.alloc(), AtomicUsize::new(0)).expect(&rt, "memory");
    let done = in_session_of_lists(
        rt.alloc(),
        FIRST_LIST,
        SALES,
        2,
        Refuses::EachAbsorb,
        &drops,
        |session| are_dropped(&rt, rt.alloc(), session, &drops),
    );
    done.expect(&rt, "a session");
    same_count(&rt, counted(&drops), 2);
}
