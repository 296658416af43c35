//! Steps that are drawn.
ghost use Rattle.std.specs.Prelude.{◌<◌};

use reuse_planner::Session;
use std::alloc::Global;
use std::process::Abort;
use test_kit::beginnings::kits;
use test_kit::drawn::Dice;
use view_pool::{Pool, View};
use worker_core::run::Core;
use worker_core::{Place, Step, StrandLine};

/// The place of any strand.
fn any_place<V: View>(
    rt: &impl Abort,
    alloc: Global,
    core: &Core<'_, V>,
    dice: &mut Dice,
) -> Place {
    let mut lines = core.strands(alloc).expect(rt, "memory");
    if lines.is_empty() {
        return Vec::new(alloc);
    }
    let number = dice.below(lines.len());
    let StrandLine { place, state: _ } = lines.swap_remove(number);
    place
}

fn any_step<V: View>(
    rt: &impl Abort,
    alloc: Global,
    core: &Core<'_, V>,
    dice: &mut Dice,
    workers: usize,
) -> Step
    requires { 0 < workers }
{
    let worker = dice.below(workers);
    match dice.below(16) {
        0..=6 => Step::Work(worker),
        7 | 8 => Step::Push(worker),
        9 => Step::Inline(worker),
        10 => Step::Pop(worker),
        11 | 12 => Step::Stall(worker),
        13 | 14 => Step::Steal(worker, dice.below(workers)),
        _ => Step::Fold(worker, any_place(rt, alloc, core, dice)),
    }
}

/// Takes a step, or has it refused, and writes it down.
fn take<V: View>(
    rt: &impl Abort,
    alloc: Global,
    core: &mut Core<'_, V>,
    step: Step,
    steps: &mut Vec<Step>,
) {
    let _ = core.step(alloc, &step);
    steps.push(step).expect(rt, "memory");
}

/// Tries so many steps.
fn go_anyhow<V: View>(
    rt: &impl Abort,
    alloc: Global,
    core: &mut Core<'_, V>,
    dice: &mut Dice,
    workers: usize,
    steps: &mut Vec<Step>,
)
    requires { 0 < workers }
{
    for _ in 0..400 {
        let step = any_step(rt, alloc, core, dice, workers);
        take(rt, alloc, core, step, steps);
    }
}

/// A worker goes on until it can't; a child that it spawns becomes a call.
fn go_on<V: View>(
    rt: &impl Abort,
    alloc: Global,
    core: &mut Core<'_, V>,
    worker: usize,
    steps: &mut Vec<Step>,
) {
    for _ in 0..30 {
        take(rt, alloc, core, Step::Work(worker), steps);
    }
    take(rt, alloc, core, Step::Inline(worker), steps);
    take(rt, alloc, core, Step::Pop(worker), steps);
    take(rt, alloc, core, Step::Stall(worker), steps);
}

/// Folds whatever can be folded.
fn fold_all<V: View>(
    rt: &impl Abort,
    alloc: Global,
    core: &mut Core<'_, V>,
    workers: usize,
    steps: &mut Vec<Step>,
) {
    let lines = core.strands(alloc).expect(rt, "memory");
    for line in &lines {
        for worker in 0..workers {
            let place = line.place.clone().expect(rt, "memory");
            take(rt, alloc, core, Step::Fold(worker, place), steps);
        }
    }
}

/// All workers go on by turns, until the run is over.
fn go_to_the_end<V: View>(
    rt: &impl Abort,
    alloc: Global,
    core: &mut Core<'_, V>,
    workers: usize,
    steps: &mut Vec<Step>,
) {
    for _ in 0..1000 {
        if core.is_over() {
            return;
        }
        for worker in 0..workers {
            go_on(rt, alloc, core, worker, steps);
        }
        fold_all(rt, alloc, core, workers, steps);
    }
}

/// Takes steps that are drawn, refused ones among them, and then as many as lead a run to its end.
pub fn drive<V: View>(
    rt: &impl Abort,
    alloc: Global,
    core: &mut Core<'_, V>,
    dice: &mut Dice,
    workers: usize,
) -> Vec<Step>
    requires { 0 < workers }
{
    let mut steps = Vec::new(alloc);
    go_anyhow(rt, alloc, core, dice, workers, &mut steps);
    go_to_the_end(rt, alloc, core, workers, &mut steps);
    steps
}

/// Such steps of a run of a session.
pub fn any_steps<V: View>(
    rt: &impl Abort,
    alloc: Global,
    session: &Session<V>,
    dice: &mut Dice,
    workers: usize,
) -> Vec<Step>
    requires { 0 < workers }
{
    session.upheld();
    let (program, tables, records) = (session.checked(), session.tables(), session.records());
    let kits = kits(alloc, program.kinds(), session.kits().0).expect(rt, "kits");
    let Ok(mut core) = Core::start(alloc, program, tables, records, Pool::new(kits), workers) else {
        panic!(rt; "not started");
    };
    let steps = drive(rt, alloc, &mut core, dice, workers);
    // What is dropped here is what a run leaves, and not the run itself.
    core.finish(alloc);
    steps
}
