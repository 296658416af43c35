//! Sessions by any edits and runs, of one to five workers or sixteen with one to six kits or many: the answers are those of the slow serial
//! program from scratch, and what a run executes and has answered by records is what that one needs by the session's records. After each edit and
//! each run the number of each record is what a slow count gives.
ghost use Rattle.std.specs.Prelude.{◌<◌, ◌≤◌};

use super::drawn::any_steps;
use super::model::Model;
use super::numbers::compare_all;
use super::slow::{Needed, needs_of, scratch_text};
use crate::tests::comparing::{same_count, same_text, same_text_of};
use reuse_planner::{Blocks, Session, run_session};
use session_kit::answers::answer_text;
use session_kit::owners::in_session;
use session_kit::scripts::played;
use std::alloc::Global;
use std::process::Abort;
use std::sync::Wait;
use std::thread::Threads;
use test_kit::drawn::Dice;
use test_kit::texts::SALES;
use threaded_driver::{NoGate, run_threads};
use view_pool::View;
use worker_core::RunAnswer;

/// Runs a session by threads, and makes blocks of its new records behind the run.
fn run_by_threads<V: View>(
    rt: &(impl Abort + Threads + Wait + Sync),
    alloc: Global,
    session: &mut Session<V>,
    workers: usize,
) -> RunAnswer
    requires workers { (0 < workers) × (workers ≤ 16) }
{
    session.make_blocks(Blocks::Later);
    let (answer, _) = run_threads(rt, alloc, session, workers, &NoGate).expect(rt, "an answer");
    session.gather(alloc);
    session.make_blocks(Blocks::AtOnce);
    answer
}

/// Runs a session by any steps.
fn run_by_steps<V: View>(
    rt: &impl Abort,
    alloc: Global,
    session: &mut Session<V>,
    dice: &mut Dice,
    workers: usize,
) -> RunAnswer
    requires { 0 < workers }
{
    let steps = any_steps(rt, alloc, session, dice, workers);
    run_session(alloc, session, workers, &steps)
}

/// Runs a session by threads, or by any steps.
fn any_run<V: View>(
    rt: &(impl Abort + Threads + Wait + Sync),
    alloc: Global,
    session: &mut Session<V>,
    dice: &mut Dice,
) -> RunAnswer {
    let workers = [1, 2, 3, 4, 5, 16][dice.below(6)];
    if dice.below(2) == 0 {
        return run_by_threads(rt, alloc, session, workers);
    }
    run_by_steps(rt, alloc, session, dice, workers)
}

/// Whether some instance was answered by a record, and whether some run ended by a fault.
type Seen = (bool, bool);

/// Edits a session once, and its model.
fn edit<V: View>(
    rt: &impl Abort,
    alloc: Global,
    session: &mut Session<V>,
    model: &mut Model,
    dice: &mut Dice,
) {
    let drawn = model.edit(rt, alloc, dice);
    let found = played(alloc, session, drawn.script.as_bytes()).expect(rt, "memory");
    same_text_of(rt, &found.lines, drawn.answer, &drawn.script);
    compare_all(rt, alloc, session);
}

/// What the model comes to, from scratch as by the session's records.
fn needed<V: View>(rt: &impl Abort, alloc: Global, session: &Session<V>, model: &Model) -> Needed {
    let wanted = scratch_text(rt, alloc, model);
    let needed = needs_of(rt, alloc, session, model);
    same_text(rt, &needed.text, &wanted);
    needed
}

/// Compares the counts of a run that has finished.
fn seen(rt: &impl Abort, answer: &RunAnswer, needed: &Needed) -> Seen {
    match answer {
        RunAnswer::Finished {
            executed,
            reused,
            ..
        } => {
            same_count(rt, *executed as usize, needed.executed);
            same_count(rt, *reused as usize, needed.reused);
            (*reused > 0, false)
        }
        _ => (false, true),
    }
}

/// Runs a session once, beside its model.
fn run_beside<V: View>(
    rt: &(impl Abort + Threads + Wait + Sync),
    alloc: Global,
    session: &mut Session<V>,
    model: &Model,
    dice: &mut Dice,
) -> Seen {
    let needed = needed(rt, alloc, session, model);
    let answer = any_run(rt, alloc, session, dice);
    let text = answer_text(alloc, session.checked(), &answer).expect(rt, "memory");
    same_text(rt, &text, &needed.text);
    compare_all(rt, alloc, session);
    seen(rt, &answer, &needed)
}

/// Edits a session some times, and then runs it.
fn go_on<V: View>(
    rt: &(impl Abort + Threads + Wait + Sync),
    alloc: Global,
    session: &mut Session<V>,
    model: &mut Model,
    dice: &mut Dice,
) -> Seen {
    for _ in 0..dice.below(4) {
        edit(rt, alloc, session, model, dice);
    }
    run_beside(rt, alloc, session, model, dice)
}

/// A dozen runs of a session of a new model.
fn any_runs<V: View>(
    rt: &(impl Abort + Threads + Wait + Sync),
    alloc: Global,
    session: &mut Session<V>,
    seed: u64,
) -> Seen {
    let mut model = Model::new(rt, alloc);
    let mut dice = Dice { state: seed };
    let mut seen = (false, false);
    for _ in 0..12 {
        let (reused, faulted) = go_on(rt, alloc, session, &mut model, &mut dice);
        seen = (seen.0 | reused, seen.1 | faulted);
    }
    seen
}

/// They leave all kits free.
fn any_runs_with<V: View>(
    rt: &(impl Abort + Threads + Wait + Sync),
    alloc: Global,
    session: &mut Session<V>,
    count: usize,
    seed: u64,
) -> Seen {
    let seen = any_runs(rt, alloc, session, seed);
    let (free, total) = session.kits();
    same_count(rt, free, count);
    same_count(rt, total, count);
    seen
}

/// The program's text in a new model.
fn first_text(rt: &impl Abort, alloc: Global) -> String {
    let model = Model::new(rt, alloc);
    model.text(rt, alloc)
}

/// A session of a dozen runs with so many kits.
fn any_session(
    rt: &(impl Abort + Threads + Wait + Sync),
    alloc: Global,
    count: usize,
    seed: u64,
) -> Seen {
    let text = first_text(rt, alloc);
    let seen = in_session(
        alloc,
        &text,
        SALES,
        count,
        |session| any_runs_with(rt, alloc, session, count, seed),
    );
    seen.expect(rt, "a session")
}

/// Sessions with so many kits.
fn any_sessions(rt: &(impl Abort + Threads + Wait + Sync), alloc: Global, count: usize) -> Seen {
    let mut seen = (false, false);
    for seed in 0..6 {
        let (reused, faulted) = any_session(rt, alloc, count, seed);
        seen = (seen.0 | reused, seen.1 | faulted);
    }
    seen
}

/// In some run with so many kits an instance was answered by a record, or in none, and some run ended by a fault.
fn is_seen(rt: &impl Abort, seen: Seen, reused: bool, count: usize) {
    assert!(rt; seen.0 == reused && seen.1, "{count} kits");
}

/// With one kit nothing is recorded.
#[test]
fn any_edits_and_runs(rt: HostRuntime) {
    for count in 1..7 {
        let seen = any_sessions(&rt, rt.alloc(), count);
        is_seen(&rt, seen, count > 1, count);
    }
    let seen = any_sessions(&rt, rt.alloc(), 64);
    is_seen(&rt, seen, true, 64);
}
