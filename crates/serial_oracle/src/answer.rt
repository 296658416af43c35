//! The answer of a program from scratch.
ghost use Rattle.std.specs.Prelude.{◌≡◌, ℤ, map, length, IfOk, []};
ghost use Rattle.meaning.specs.TreeView.{tree};
ghost use Rattle.meaning.specs.Statements.{beginning};
ghost use Rattle.meaning.specs.Elision.{from_scratch as from_scratch_of};
ghost use Rattle.meaning.specs.Records.{executed, reused, needed};
ghost use Rattle.serial_oracle.specs.Listing.{tables_plain};
ghost use Rattle.serial_oracle.specs.Keeping.{key_plain, kept, revised, tree_in, revised_in, tables_in, records_in};
ghost use Rattle.serial_oracle.specs.Worths.{worths, noted_in, AreFit};
ghost use Rattle.serial_oracle.specs.Answers.{answer_plain, finish, IsHalted, needed_answer};

use crate::beginning::initial_changes;
use crate::journal::{Change, Journal, Key, begun};
use crate::records::{Record, Revisions};
use crate::run::enter;
use crate::scope::Scope;
use crate::stops::{Fault, NoMemory, Stop};
use crate::tables::TableRows;
use crate::updates::values_after;
use meaning::DEPTH_LIMIT;
use meaning::tree::Program;
use monoid_laws::Val;
use std::alloc::Global;

/// The value of main and what each reducer is worth, in the order of the program, or the first fault.
#[derive(Drop)]
pub enum Answer<'p> {
    Finished(i64, Vec<Val>),
    Faulted(Fault<'p>),
}

/// The answer of a run, the memo instances that were run, and those that a record answered, as often as entered.
#[derive(Drop)]
pub struct Rerun<'p> {
    pub answer: Answer<'p>,
    pub executed: Vec<Key<'p>>,
    pub reused: Vec<Key<'p>>,
}

/// The answer of a run that gave a value after these changes.
fn finished<'p>(scope: &Scope, value: i64, changes: &[Change]) -> Result<Answer<'p>, NoMemory>
    requires fit { AreFit (tree_in scope.now) (records_in scope.now) }
    ensures { IfOk result (λ a. answer_plain a ≡ finish value (worths (tree_in scope.now) (records_in scope.now) changes.now)) }
{
    match values_after(scope, changes) {
        Ok(values) => Ok(Answer::Finished(value, values)),
        Err(_) => Err(NoMemory),
    }
}

/// The answer of a run that was stopped.
fn halted(stop: Stop<'_>) -> Result<Answer<'_>, NoMemory>
    ensures { IsHalted stop.entry result }
{
    match stop {
        Stop::Fault(fault) => Ok(Answer::Faulted(fault)),
        Stop::NoMemory => Err(NoMemory),
    }
}

/// Runs main behind the initial values of the reducers, and gives its answer.
fn run_main<'p, 's>(
    scope: &Scope<'p, 's>,
    journal: &mut Journal<'p>,
) -> Result<Answer<'p>, NoMemory>
    requires fit { AreFit (tree_in scope.now) (records_in scope.now) }
    requires changes { noted_in scope.now journal.old.changes.items ≡ beginning (tree_in scope.now) }
    requires no_executed { journal.old.executed.items ≡ [] }
    requires no_reused { journal.old.reused.items ≡ [] }
    ensures answer { IfOk result (λ a. answer_plain a ≡ needed_answer (revised_in scope.now) (tables_in scope.now) (records_in scope.now)) }
    ensures executed { IfOk result (λ a. map key_plain journal.new.executed.items
        ≡ executed (tree_in scope.now) (needed (revised_in scope.now) (tables_in scope.now) (records_in scope.now))) }
    ensures reused { IfOk result (λ a. map key_plain journal.new.reused.items
        ≡ reused (needed (revised_in scope.now) (tables_in scope.now) (records_in scope.now))) }
{
    match enter(scope, DEPTH_LIMIT, "main", 0, "main", &[], journal) {
        Ok(value) => finished(scope, value, &journal.changes),
        Err(stop) => halted(stop),
    }
}

/// The answer of a program on tables where valid records answer memo instances, with the instances run and answered; `NoMemory` where memory ran out.
pub fn needed_instances<'p>(
    alloc: Global,
    program: &'p Program,
    revisions: &Revisions,
    tables: &[TableRows],
    records: &[Record],
) -> Result<Rerun<'p>, NoMemory>
    requires fit { AreFit (tree program.now) (map kept records.now) }
    ensures answer { IfOk result (λ r. answer_plain r.answer
        ≡ needed_answer (revised (tree program.now) revisions.now) (tables_plain tables.now)
        (map kept records.now)) }
    ensures executed { IfOk result (λ r. map key_plain r.executed.items
        ≡ executed (tree program.now) (needed (revised (tree program.now) revisions.now)
        (tables_plain tables.now) (map kept records.now))) }
    ensures reused { IfOk result (λ r. map key_plain r.reused.items
        ≡ reused (needed (revised (tree program.now) revisions.now) (tables_plain tables.now)
        (map kept records.now))) }
{
    let scope = Scope {
        alloc,
        program,
        revisions,
        tables,
        records,
    };
    match initial_changes(&scope) {
        Err(_) => Err(NoMemory),
        Ok(changes) => {
            let mut journal = begun(alloc, changes);
            match run_main(&scope, &mut journal) {
                Err(stop) => Err(stop),
                Ok(answer) => Ok(Rerun {
                    answer,
                    executed: journal.executed,
                    reused: journal.reused,
                }),
            }
        }
    }
}

/// The answer of a program on tables, by one run in the order of the text; `NoMemory` where memory ran out.
pub fn from_scratch<'p>(
    alloc: Global,
    program: &'p Program,
    tables: &[TableRows],
) -> Result<Answer<'p>, NoMemory>
    ensures { IfOk result (λ a. answer_plain a
        ≡ from_scratch_of (tree program.now) (tables_plain tables.now)) }
{
    let revisions = Revisions {
        numbers: Vec::new(alloc),
        counter: 0,
    };
    let scope = Scope {
        alloc,
        program,
        revisions: &revisions,
        tables,
        records: &[],
    };
    match initial_changes(&scope) {
        Err(_) => Err(NoMemory),
        Ok(changes) => {
            let mut journal = begun(alloc, changes);
            run_main(&scope, &mut journal)
        }
    }
}
