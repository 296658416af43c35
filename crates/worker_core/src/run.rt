// A run by steps.
ghost use Rattle.std.specs.Prelude.{◌≡◌, ◌⊎◌, true, false, All, Ok, IfOk, IfErr, OnOk, map, length};
ghost use Rattle.numbered_runs.specs.Named.{run_step, book_step, line};
ghost use Rattle.stepped_runs.specs.Runs.{are_workers, line_of};
ghost use Rattle.worker_core.specs.Moves.{RefusedAs};
ghost use Rattle.worker_core.specs.Strands.{run_of, kits_in};
ghost use Rattle.record_theory.specs.InStep.{IsInStep};
ghost use Rattle.record_theory.specs.Named.{HaveValues};
ghost use Rattle.linked_program.specs.TableNames.{columned_of};
ghost use Rattle.worker_core.specs.Going.{GoesOn};
ghost use Rattle.worker_core.specs.Leaving.{LeavesElision};
ghost use Rattle.numbered_runs.specs.Sound.{AreSoundFor};
ghost use Rattle.worker_core.specs.Keeps.{IsBeginning, IsStep, IsNoStep, IsLegal, AnswersElision, IsGiven, ComesToEnd, HasRecorded, StaySound};
ghost use Rattle.worker_core.specs.Cores.{IsFirstCore, is_failure, takes_memory, stepped_on, taken, failed_by, StandsAfter, IsEnd, is_over, PassesWithoutKit};
ghost use Rattle.numbered_runs.specs.Starts.{CannotStart};

use crate::strands::Strands;
use activations::setting::Setting;
use input_tables::Tables;
use instance_records::record::Record;
use linked_program::checked::Checked;
use numbered_runs::ready::are_ready;
use numbered_runs::refusal::{Refusal, StartError};
use numbered_runs::step::{BookStep, Step, StrandLine};
use positions::answer::RunAnswer;
use rerun_records::records::Records;
use std::alloc::{AllocError, Global};
use std::marker::Model;
use view_pool::{Kit, Pool, View};

/// A run of a checked program on tables, by steps of so many workers. Its memo instances are answered by the records that hold
/// now, and it makes new ones.
#[derive(Drop)]
pub struct Core<'a, V: View = Box<dyn View>> {
    program: &'a Checked,
    tables: &'a Tables,
    records: &'a Records,
    strands: Strands<V>,
    workers: usize,
    failed: bool,
}

impl<'a, V: View> Model for Core<'a, V> {
    ghost use Rattle.worker_core.specs.Cores.{PlainCore};
    ghost use Rattle.worker_core.specs.Strands.{AreFit};
    ghost use Rattle.worker_core.specs.Keeps.{StaysRun};

    ghost Value = { PlainCore };

    ghost use Rattle.linked_program.specs.contracts.code.Expression as e;
    ghost use Rattle.meaning.specs.contracts.tree.Expr as t;
    ghost use Rattle.std.specs.Coded.{codes};

    ghost coded = { Prim.hlevel (codes, e.the_row.coded, t.the_row.coded) };

    ghost view = { λ c. record {
      program = c.program.now;
      tables = c.tables.now;
      records = c.records.now;
      strands = c.strands;
      workers = c.workers;
      failed = c.failed;
    } };

    ghost invariant = { λ c. AreFit c.program.now.kinds c.strands × StaysRun c.failed c.program.now c.tables.now c.records.now c.workers c.strands };
}

impl<'a, V: View> Core<'a, V> {
    /// The beginning of a run: main's strand, held by worker 0, with a kit of the pool. Refused where no kit is free, or for
    /// want of memory; the pool is handed back.
    pub fn start(
        alloc: Global,
        program: &'a Checked,
        tables: &'a Tables,
        records: &'a Records,
        pool: Pool<Kit<V>>,
        workers: usize,
    ) -> Result<Core<'a, V>, (StartError, Pool<Kit<V>>)>
        requires kits { All (λ k. k ≡ program.now.kinds) pool.kits }
        requires tables { program.now.tables ≡ columned_of tables.now.tables }
        requires sound { AreSoundFor program.now records.now }
        requires values { HaveValues program.now.kinds records.now }
        requires in_step { IsInStep tables.now.tables records.now }
        ensures started { IfOk result (λ core.
            IsFirstCore program.now tables.now records.now pool workers core) }
        ensures beginning { IfOk result (IsBeginning (length pool.kits)) }
        ensures kits { IfOk result (λ core. kits_in core.strands ≡ length pool.kits) }
        ensures refused { IfErr result (λ e. CannotStart pool e.0) }
        ensures handed_back { IfErr result (λ e. e.1 ≡ pool) }
    {
        are_ready(program, tables);
        program.beginning();
        match Strands::first(alloc, program, pool) {
            Ok(strands) => Ok(Core {
                program,
                tables,
                records,
                strands,
                workers,
                failed: false,
            }),
            Err(refused) => Err(refused),
        }
    }

    /// Takes one step, or refuses it: there is no such worker or the run has failed, then the worker holds a strand, then
    /// there is no such step, nothing to take, no kit, no memory. A refusal changes nothing, but where memory is refused: after
    /// a fold some reducers may have moved between the two strands, whose product is the same, and after a step that is no push
    /// and no fold the run has failed; then the topmost layers of the strand that was at work may have other values.
    pub fn step(&mut self, alloc: Global, step: &Step) -> Result<(), Refusal>
        ensures taken { OnOk result (taken self.old step.now ≡ Ok (run_of self.new.strands)) }
        ensures step { OnOk result (IsStep step.now self.old self.new) }
        ensures refused { IfErr result (RefusedAs (takes_memory step.now) (taken self.old step.now)) }
        ensures no_step { IfErr result (λ e. (e ≡ Refusal.NoMemory) ⊎ IsNoStep step.now self.old) }
        ensures stands { IfErr result (λ e.
            StandsAfter step.now e self.old.strands self.new.strands) }
        ensures failed { IfErr result (λ e.
            self.new ≡ record (failed_by step.now e self.old) { strands = self.new.strands }) }
        ensures going { OnOk result (self.new ≡ record self.old { strands = self.new.strands }) }
        // An instance goes without a record only where no kit was free.
        ensures unrecorded { OnOk result (PassesWithoutKit self.old.strands self.new.strands) }
        ensures total { self.new.strands.total ≡ self.old.strands.total }
        ensures kits { kits_in self.new.strands ≡ kits_in self.old.strands }
    {
        if self.failed || !are_workers(self.workers, step) {
            return Err(Refusal::NotThere);
        }
        self.take(alloc, step)
    }

    /// The step by workers that there are, in a run that has not failed.
    fn take(&mut self, alloc: Global, step: &Step) -> Result<(), Refusal>
        requires workers { are_workers self.old.workers (run_step step.now) ≡ true }
        requires going { self.old.failed ≡ false }
        ensures taken { OnOk result (stepped_on self.old step.now ≡ Ok (run_of self.new.strands)) }
        ensures refused { IfErr result (RefusedAs (takes_memory step.now) (stepped_on self.old step.now)) }
        ensures stands { IfErr result (λ e. StandsAfter step.now e self.old.strands self.new.strands) }
        ensures failed { IfErr result (λ e. self.new ≡ record (failed_by step.now e self.old) { strands = self.new.strands }) }
        ensures going { OnOk result (self.new ≡ record self.old { strands = self.new.strands }) }
        ensures total { self.new.strands.total ≡ self.old.strands.total }
        ensures kits { kits_in self.new.strands ≡ kits_in self.old.strands }
    {
        let setting = Setting {
            program: self.program,
            tables: self.tables,
            records: self.records,
        };
        match self.strands.take(alloc, setting, step) {
            Ok(()) => Ok(()),
            Err(refusal) => {
                self.failed = is_failure(step, refusal);
                Err(refusal)
            }
        }
    }

    /// What the type keeps: until the run has failed it stands for one of the definitions, of which the elision's answer from
    /// scratch is left to do.
    pub fn upheld(&self)
        ensures leaves { self.now.failed ≡ false → LeavesElision self.now }
    {
        let _ = &self.strands;
    }

    /// What changed the list of strands so far.
    pub fn history(&self) -> &[BookStep]
        ensures history { map book_step result.now ≡ self.now.strands.history }
        ensures legal { IsLegal self.now }
    {
        let strands = &self.strands;
        &strands.history
    }

    /// The strands in serial order; want of memory is the only error.
    pub fn strands(&self, alloc: Global) -> Result<Vec<StrandLine>, AllocError>
        ensures strands { IfOk result (λ lines.
            map line lines.items ≡ map line_of self.now.strands.pieces) }
    {
        self.strands.lines(alloc)
    }

    /// Whether there is no more to do: one strand is left, and it is laid down as finished or faulted, or the run has failed.
    /// Until then one of its workers has a step, where there is a worker.
    pub fn is_over(&self) -> bool
        ensures over { result ≡ is_over self.now }
        ensures goes_on { GoesOn self.now }
    {
        self.failed || self.strands.are_over()
    }

    /// The run's answer where it has come to its end, else Unfinished, NoMemory where it has failed; the pool, with all kits
    /// given back; and the new records of a run that has finished, which are sound, hold now, and leave nothing to be executed
    /// where each execution was recorded.
    pub fn finish(self, alloc: Global) -> (RunAnswer, Pool<Kit<V>>, Vec<Record>)
        ensures elision { AnswersElision self.entry result.0 }
        ensures over { is_over self.entry ≡ true → IsGiven result.0 }
        ensures comes { ComesToEnd self.entry result.0 }
        ensures end { IsEnd self.entry.failed self.entry.strands.pieces result.0 }
        ensures free { length result.1.kits ≡ kits_in self.entry.strands }
        ensures kinds { All (λ k. k ≡ self.entry.program.kinds) result.1.kits }
        ensures total { result.1.total ≡ self.entry.strands.total }
        ensures recorded { HasRecorded self.entry result.0 result.2.items }
        ensures sound { StaySound self.entry result.2.items }
        ensures values { HaveValues self.entry.program.kinds result.2.items }
    {
        let Core {
            strands,
            failed,
            ..
        } = self;
        strands.end(alloc, failed)
    }
}

/// Whether there are so many workers.
fn are_workers(workers: usize, step: &Step) -> bool
    ensures workers { result ≡ are_workers workers (run_step step.now) }
{
    match step {
        Step::Work(worker)
        | Step::Push(worker)
        | Step::Inline(worker)
        | Step::Pop(worker)
        | Step::Stall(worker)
        | Step::Fold(worker, _) => *worker < workers,
        Step::Steal(thief, victim) => *thief < workers && *victim < workers,
    }
}

/// Whether a run has failed with a refusal of that step.
fn is_failure(step: &Step, refusal: Refusal) -> bool
    ensures failure { result ≡ is_failure step.now refusal }
{
    match refusal {
        Refusal::NoMemory => match step {
            Step::Push(_) | Step::Fold(_, _) => false,
            _ => true,
        },
        _ => false,
    }
}
