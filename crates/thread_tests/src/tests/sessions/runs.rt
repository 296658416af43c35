//! Runs by any steps, of one to five workers with one to six kits: their answers are those of the slow serial program.
ghost use Rattle.std.specs.Prelude.{◌<◌};

use super::drawn::drive;
use super::model::Model;
use super::programs::ALL;
use super::slow::text_of;
use crate::tests::comparing::same_count;
use linked_program::checked::Checked;
use reuse_planner::Session;
use session_kit::answers::answer_text;
use session_kit::owners::in_session;
use std::alloc::Global;
use std::process::Abort;
use test_kit::beginnings::kits;
use test_kit::drawn::Dice;
use test_kit::texts::SALES;
use trace_report::trace::{folds, steals};
use view_pool::{Pool, View};
use worker_core::run::Core;

/// The answer of a run, and whether there were a steal and a fold in it.
#[derive(Drop)]
struct Run {
    answer: String,
    seen: Seen,
}

/// Whether there were a steal and a fold in a run.
type Seen = (bool, bool);

/// Takes any steps of a run, and then as many as lead it to its end.
fn driven<V: View>(
    rt: &impl Abort,
    alloc: Global,
    core: &mut Core<'_, V>,
    workers: usize,
    seed: u64,
) -> Seen
    requires workers { 0 < workers }
{
    let _steps = drive(rt, alloc, core, &mut Dice { state: seed }, workers);
    (steals(core.history()) > 0, folds(core.history()) > 0)
}

/// What a run has come to, behind which all kits are home.
fn ended<V: View>(rt: &impl Abort, alloc: Global, program: &Checked, core: Core<'_, V>) -> String {
    let (answer, pool, _) = core.finish(alloc);
    same_count(rt, pool.free(), pool.total());
    answer_text(alloc, program, &answer).expect(rt, "memory")
}

/// Runs a session's program by any steps, and then to its end; all kits are home then.
fn any_run<V: View>(
    rt: &impl Abort,
    alloc: Global,
    session: &Session<V>,
    workers: usize,
    count: usize,
    seed: u64,
) -> Run
    requires workers { 0 < workers }
{
    session.upheld();
    let (program, tables, records) = (session.checked(), session.tables(), session.records());
    let pool = Pool::new(kits(alloc, program.kinds(), count).expect(rt, "kits"));
    let Ok(mut core) = Core::start(alloc, program, tables, records, pool, workers) else {
        panic!(rt; "not started");
    };
    let seen = driven(rt, alloc, &mut core, workers, seed);
    let answer = ended(rt, alloc, program, core);
    Run { answer, seen }
}

/// Compares what a run by so many workers with so many kits, drawn by that seed, came to.
fn same_answer(rt: &impl Abort, found: &str, wanted: &str, of: (usize, usize, u64)) {
    assert_eq!(rt; found, wanted, "{} workers, {} kits, {}", of.0, of.1, of.2);
}

/// Runs a session's program several times with so many workers and kits.
fn any_runs<V: View>(
    rt: &impl Abort,
    alloc: Global,
    session: &Session<V>,
    workers: usize,
    count: usize,
    wanted: &str,
) -> Seen
    requires workers { 0 < workers }
{
    let mut seen = (false, false);
    for seed in 0..3 {
        let run = any_run(rt, alloc, session, workers, count, seed);
        same_answer(rt, &run.answer, wanted, (workers, count, seed));
        seen = (seen.0 | run.seen.0, seen.1 | run.seen.1);
    }
    seen
}

/// Runs it with one to five workers and one to six kits.
fn all_runs<V: View>(rt: &impl Abort, alloc: Global, session: &Session<V>) -> Seen {
    let model = Model::new(rt, alloc);
    let wanted = text_of(rt, alloc, session.checked().program(), &model);
    let mut seen = (false, false);
    for workers in 1..6 {
        for count in 1..7 {
            let (steals, folds) = any_runs(rt, alloc, session, workers, count, &wanted);
            seen = (seen.0 | steals, seen.1 | folds);
        }
    }
    seen
}

/// In some run there was a steal, and in some a fold.
fn are_seen(rt: &impl Abort, seen: Seen, text: &str) {
    assert!(rt; seen.0 && seen.1, "{text}");
}

/// Runs the program that a text is so.
fn gives_the_serial_answer(rt: &impl Abort, alloc: Global, text: &str) {
    let seen = in_session(
        alloc,
        text,
        SALES,
        1,
        |session| all_runs(rt, alloc, session),
    );
    are_seen(rt, seen.expect(rt, "a session"), text);
}

#[test]
fn any_steps_give_the_serial_answer(rt: HostRuntime) {
    for text in &ALL {
        gives_the_serial_answer(&rt, rt.alloc(), text);
    }
}
