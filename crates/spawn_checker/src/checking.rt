//! Checks a program of the whole language.
ghost use Rattle.std.specs.Prelude.{◌≡◌, [], map, IfOk, IfErr, OnOk};
ghost use Rattle.meaning.specs.Edits.{revised};
ghost use Rattle.meaning.specs.TreeView.{tree, lines};
ghost use Rattle.linked_program.specs.TableNames.{columned, columned_of};
ghost use Rattle.linked_program.specs.Declarations.{violations, IsClean};
ghost use Rattle.linked_program.specs.Checked.{revised_of, nothing};
ghost use Rattle.spawn_checker.specs.Refused.{IsRefused};
ghost use Rattle.spawn_checker.specs.Renumbered.{IsRefusedAnew};
ghost use Rattle.spawn_checker.specs.declared.violation.CheckError.TheVariants.{NoMemory};

use crate::declarations::first_violation;
use crate::linked::linked;
use crate::refusal::refusal;
use crate::renumbering::next_revisions;
use crate::revisions::first_revisions;
use crate::table_names::table_names;
use crate::violation::CheckError;
use input_tables::Tables;
use linked_program::checked::Checked;
use linked_program::tables::TableNames;
use meaning::tree::Program;
use std::alloc::Global;

/// The names of these tables, where a program breaks no rule over them; else its refusal.
pub(crate) fn names_if_clean(
    alloc: Global,
    program: &Program,
    tables: &Tables,
) -> Result<Vec<TableNames>, CheckError>
    ensures names { IfOk result (λ names. map columned names.items ≡ columned_of tables.now.tables) }
    ensures clean { OnOk result (violations (columned_of tables.now.tables) (tree program.now) (lines program.now) ≡ []) }
    ensures refused { IfErr result (IsRefused (columned_of tables.now.tables) (tree program.now) (lines program.now)) }
{
    let names = table_names(alloc, tables)?;
    match first_violation(alloc, &program.declarations, &names)? {
        Some(violation) => Err(refusal(alloc, &program.declarations, violation)),
        None => Ok(names),
    }
}

// A program that breaks no rule, with its first revision numbers.
fn first_checked(
    alloc: Global,
    program: Program,
    tables: Vec<TableNames>,
) -> Result<Checked, CheckError>
    requires { IsClean (map columned tables.items) program }
    ensures program { IfOk result (λ checked. checked.program ≡ program) }
    ensures tables { IfOk result (λ checked. checked.tables ≡ map columned tables.items) }
    ensures revisions { IfOk result (λ checked. ((revised_of checked).revisions, checked.counter) ≡ revised nothing (tree program) 0) }
    ensures refused { IfErr result (λ error. error ≡ NoMemory) }
{
    let numbers = first_revisions(alloc, &program.declarations)?;
    Ok(linked(alloc, program, tables, numbers.revisions, numbers.counter)?)
}

/// Checks a program by the rules of the language, against these tables' names; refused by its first violation, or for want of memory.
///
/// Its procedures get their first revision numbers, from 0 on.
pub fn check(alloc: Global, program: Program, tables: &Tables) -> Result<Checked, CheckError>
    ensures program { IfOk result (λ checked. checked.program ≡ program) }
    ensures tables { IfOk result (λ checked. checked.tables ≡ columned_of tables.now.tables) }
    ensures clean { OnOk result (violations (columned_of tables.now.tables) (tree program)
        (lines program) ≡ []) }
    ensures revisions { IfOk result (λ checked. ((revised_of checked).revisions, checked.counter)
        ≡ revised nothing (tree program) 0) }
    ensures refused { IfErr result (IsRefused (columned_of tables.now.tables) (tree program)
        (lines program)) }
{
    match names_if_clean(alloc, &program, tables) {
        Ok(names) => first_checked(alloc, program, names),
        Err(error) => Err(error),
    }
}

// A program that breaks no rule, with the revision numbers that it gets in the place of another.
fn next_checked(
    alloc: Global,
    old: &Checked,
    program: Program,
    tables: Vec<TableNames>,
) -> Result<Checked, CheckError>
    requires { IsClean (map columned tables.items) program }
    ensures program { IfOk result (λ checked. checked.program ≡ program) }
    ensures tables { IfOk result (λ checked. checked.tables ≡ map columned tables.items) }
    ensures revisions { IfOk result (λ checked. ((revised_of checked).revisions, checked.counter)
        ≡ revised (revised_of old.now) (tree program) old.now.counter) }
    ensures refused { IfErr result (IsRefusedAnew (revised_of old.now) (map columned tables.items) (tree program) (lines program)) }
{
    old.revised();
    match next_revisions(alloc, old, &program.declarations)? {
        None => Err(CheckError::Exhausted),
        Some(numbers) => Ok(linked(alloc, program, tables, numbers.revisions, numbers.counter)?),
    }
}

/// Checks a program in the place of another, against these tables' names. A procedure whose tree is as it was, lines aside,
/// keeps its revision number; a changed or new one gets a number that was never used.
///
/// Refused as by `check`; where no rule is broken, as exhausted where a new number would not fit 64 bits.
pub fn redefine(
    alloc: Global,
    old: &Checked,
    program: Program,
    tables: &Tables,
) -> Result<Checked, CheckError>
    ensures program { IfOk result (λ checked. checked.program ≡ program) }
    ensures tables { IfOk result (λ checked. checked.tables ≡ columned_of tables.now.tables) }
    ensures clean { OnOk result (violations (columned_of tables.now.tables) (tree program)
        (lines program) ≡ []) }
    ensures revisions { IfOk result (λ checked. ((revised_of checked).revisions, checked.counter)
        ≡ revised (revised_of old.now) (tree program) old.now.counter) }
    ensures refused { IfErr result (IsRefusedAnew (revised_of old.now)
        (columned_of tables.now.tables) (tree program) (lines program)) }
{
    match names_if_clean(alloc, &program, tables) {
        Ok(names) => next_checked(alloc, old, program, names),
        Err(error) => Err(error),
    }
}
