// Runs of a session by steps that are given.
ghost use Rattle.std.specs.Prelude.{◌≡◌, ◌↔◌, ◌<◌, ◌≤◌, [], false, All, IfOk, OnOk, length};
ghost use Rattle.linked_program.specs.TableNames.{columned_of};
ghost use Rattle.record_theory.specs.InStep.{IsInStep};
ghost use Rattle.record_theory.specs.Named.{HaveValues};
ghost use Rattle.worker_core.specs.Strands.{kits_in};
ghost use Rattle.worker_core.specs.Cores.{is_no_memory};
ghost use Rattle.numbered_runs.specs.Sound.{AreSoundFor};
ghost use Rattle.worker_core.specs.Keeps.{AnswersElision, HasRecorded};
ghost use Rattle.numbered_runs.specs.Recorded.{HasRecordedBy};
ghost use Rattle.kept_session.specs.Sessions.{standing_of};
ghost use Rattle.reuse_planner.specs.Driven.{lender, IsSameRun, IsTaken, AreTaken, EndsBy};
ghost use Rattle.session_runs.specs.Runs.{IsFromScratch};
ghost use Rattle.reuse_planner.specs.Runs.{IsLed, IsBegun};

use input_tables::Tables;
use linked_program::checked::Checked;
use std::alloc::{AllocError, Global};
use view_pool::{Kit, Pool, View};
use worker_core::run::Core;
use worker_core::{Record, Records, Refusal, RunAnswer, Step};

/// How a run has ended: its answer, the pool with all kits, its new records, and how many pushes were done as inlines.
#[derive(Drop)]
pub(crate) struct Ended<V: View> {
    pub(crate) answer: RunAnswer,
    pub(crate) pool: Pool<Kit<V>>,
    pub(crate) made: Vec<Record>,
    pub(crate) inlined: usize,
}

/// A run of a program on tables over records, by so many workers that take these steps.
pub(crate) fn run_on<V: View>(
    alloc: Global,
    checked: &Checked,
    tables: &Tables,
    records: &Records,
    pool: Pool<Kit<V>>,
    workers: usize,
    steps: &[Step],
) -> Ended<V>
    requires some { 0 < length pool.kits }
    requires kits { All (λ k. k ≡ checked.now.kinds) pool.kits }
    requires tables { checked.now.tables ≡ columned_of tables.now.tables }
    requires sound { AreSoundFor checked.now records.now }
    requires values { HaveValues checked.now.kinds records.now }
    requires in_step { IsInStep tables.now.tables records.now }
    ensures elision { IsFromScratch (standing_of (lender checked.now tables.now pool records.now)) result.answer }
    ensures led { IsLed (lender checked.now tables.now pool records.now) workers steps.now result.inlined result.answer }
    ensures within { result.inlined ≤ length steps.now }
    ensures begun { IsBegun result.answer }
    ensures recorded { HasRecordedBy checked.now tables.now records.now result.answer result.made.items }
    ensures values { HaveValues checked.now.kinds result.made.items }
    ensures free { length result.pool.kits ≡ length pool.kits }
    ensures kinds { All (λ k. k ≡ checked.now.kinds) result.pool.kits }
    ensures total { result.pool.total ≡ pool.total }
{
    match Core::start(alloc, checked, tables, records, pool, workers) {
        Ok(core) => go(alloc, core, steps),
        Err((_, pool)) => Ended {
            answer: RunAnswer::NoMemory,
            pool,
            made: Vec::new(alloc),
            inlined: 0,
        },
    }
}

// Takes the steps, and ends the run. Where memory was refused its new records are dropped.
fn go<V: View>(alloc: Global, core: Core<'_, V>, steps: &[Step]) -> Ended<V>
    requires going { core.failed ≡ false }
    ensures elision { AnswersElision core.entry result.answer }
    ensures led { EndsBy core.entry steps.now result.inlined result.answer }
    ensures within { result.inlined ≤ length steps.now }
    ensures recorded { HasRecorded core.entry result.answer result.made.items }
    ensures values { HaveValues core.entry.program.kinds result.made.items }
    ensures free { length result.pool.kits ≡ kits_in core.entry.strands }
    ensures kinds { All (λ k. k ≡ core.entry.program.kinds) result.pool.kits }
    ensures total { result.pool.total ≡ core.entry.strands.total }
{
    let mut core = core;
    let mut inlined = 0;
    let driven = drive(alloc, &mut core, steps, &mut inlined);
    let (answer, pool, made) = core.finish(alloc);
    if driven.is_err() {
        return Ended {
            answer: RunAnswer::NoMemory,
            pool,
            made: Vec::new(alloc),
            inlined,
        };
    }
    Ended {
        answer,
        pool,
        made,
        inlined,
    }
}

// Takes the steps in their order, and counts the pushes that are done as inlines. The only error is that memory was refused
// for another step.
fn drive<V: View>(
    alloc: Global,
    core: &mut Core<'_, V>,
    steps: &[Step],
    inlined: &mut usize,
) -> Result<(), AllocError>
    requires none { inlined.old ≡ 0 }
    ensures same { IsSameRun core.old core.new }
    ensures taken { OnOk result (AreTaken steps.now inlined.new core.old core.new) }
    ensures within { inlined.new ≤ length steps.now }
{
    for step in steps {
        if take(alloc, core, step)? {
            *inlined += 1;
        }
    }
    Ok(())
}

// Takes a step, or passes over one that can't be taken. A push for which memory is refused is done as an inline: whether that
// was so. The only error is that memory was refused for another step.
fn take<V: View>(alloc: Global, core: &mut Core<'_, V>, step: &Step) -> Result<bool, AllocError>
    ensures same { IsSameRun core.old core.new }
    ensures taken { IfOk result (λ b. IsTaken b step.now core.old core.new) }
{
    match core.step(alloc, step) {
        Ok(()) => Ok(false),
        Err(refusal) => {
            if !is_no_memory(refusal) {
                return Ok(false);
            }
            match step {
                Step::Push(worker) => {
                    inline(alloc, core, *worker);
                    Ok(true)
                }
                _ => Err(AllocError),
            }
        }
    }
}

// Takes an inline of a worker, or passes over it; it takes no memory.
fn inline<V: View>(alloc: Global, core: &mut Core<'_, V>, worker: usize)
    ensures same { IsSameRun core.old core.new }
    ensures taken { IsTaken false (Step.Inline worker) core.old core.new }
{
    let _ = core.step(alloc, &Step::Inline(worker));
}

// Whether memory was refused.
fn is_no_memory(refusal: Refusal) -> bool
    ensures memory { result ≡ is_no_memory refusal }
{
    match refusal {
        Refusal::NoMemory => true,
        _ => false,
    }
}
