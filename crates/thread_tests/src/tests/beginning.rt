//! Runs by threads under gates, and the text of what they come to.
ghost use Rattle.std.specs.Prelude.{◌<◌, ◌≤◌};
ghost use Rattle.kept_session.specs.Sessions.{AreNewFor};

use super::comparing::{same_count, same_text};
use reuse_planner::Session;
use session_kit::answers::answer_text;
use session_kit::owners::in_session;
use std::alloc::Global;
use std::process::Abort;
use std::sync::Wait;
use std::thread::Threads;
use test_kit::texts::SALES;
use threaded_driver::{Ended, Gate, NoGate, Tally, run_threads, run_unsettled};
use view_pool::View;

/// Runs a session by so many threads under a gate, and gives what it came to.
pub fn outcome<V: View + Send, R: Abort + Threads + Wait + Sync, G: Gate>(
    rt: &R,
    alloc: Global,
    session: &mut Session<V>,
    workers: usize,
    gate: &G,
) -> String
    requires workers { (0 < workers) × (workers ≤ 16) }
{
    let (answer, _history) = run_threads(rt, alloc, session, workers, gate).expect(
        rt,
        "no mismatch",
    );
    answer_text(alloc, session.checked(), &answer).expect(rt, "memory")
}

/// Runs a session by two threads, compares what it came to, and gives the tally with the run's records, which aren't put in.
pub fn unsettled<V: View + Send, R: Abort + Threads + Wait + Sync>(
    rt: &R,
    alloc: Global,
    session: &mut Session<V>,
    wanted: &str,
) -> Tally
    ensures news { AreNewFor session.new.checked session.new.tables result.made }
{
    let ended = run_unsettled(rt, alloc, session, 2, &NoGate).expect(rt, "no mismatch");
    let Ended {
        answer,
        tally,
        steps: _steps,
    } = ended;
    let found = answer_text(alloc, session.checked(), &answer).expect(rt, "memory");
    same_text(rt, &found, wanted);
    tally
}

/// Runs a session by so many threads, 16 at most, and gives what it came to. Behind it all kits are home.
pub fn answer<V: View + Send, R: Abort + Threads + Wait + Sync, G: Gate>(
    rt: &R,
    alloc: Global,
    session: &mut Session<V>,
    workers: usize,
    gate: &G,
) -> String {
    let text = outcome(rt, alloc, session, workers.max(1).min(16), gate);
    let (free, total) = session.kits();
    same_count(rt, free, total);
    text
}

/// Runs the program that a text is on the sales with so many kits, by so many threads, 16 at most, under a gate, and compares what
/// it came to.
pub fn is_answered<R: Abort + Threads + Wait + Sync, G: Gate>(
    rt: &R,
    alloc: Global,
    text: &str,
    count: usize,
    workers: usize,
    gate: &G,
    wanted: &str,
) {
    let found = in_session(
        alloc,
        text,
        SALES,
        count,
        |session| answer(rt, alloc, session, workers, gate),
    );
    same_text(rt, &found.expect(rt, "a session"), wanted);
}
