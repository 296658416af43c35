//! The refusal of a program by a violation.
ghost use Rattle.std.specs.Prelude.{◌≡◌, map, option_map, option_copied, Some};
ghost use Rattle.meaning.specs.TreeView.{decl};
ghost use Rattle.linked_program.specs.Declarations.{name_at as called_at, called as name_of};
ghost use Rattle.spawn_checker.specs.Refused.{IsRefusedBy};

use crate::violation::CheckError;
use linked_program::violation::Violation;
use meaning::tree::Declaration;
use std::alloc::Global;

// The name of a declaration.
fn called(declaration: Option<&Declaration>) -> &str
    ensures { result.now ≡ name_of (option_map decl (option_copied declaration.entry)) }
{
    match declaration {
        Some(Declaration::Reducer(reducer)) => reducer.name.as_str(),
        Some(Declaration::Procedure(procedure)) => procedure.name.as_str(),
        None => "",
    }
}

// The name of a declaration, counted from 1; that of the whole program is `main`.
#[tactic(auto, using(single_rules::proofs::Lists::slice_get_of_map))]
fn name_at(declarations: &[Declaration], declaration: usize) -> &str
    ensures { result.now ≡ called_at (map decl declarations.now) declaration }
{
    if declaration == 0 {
        "main"
    } else {
        called(declarations.get(declaration - 1))
    }
}

/// The refusal of a program by a violation.
pub(crate) fn refusal(
    alloc: Global,
    declarations: &[Declaration],
    violation: Violation,
) -> CheckError
    ensures { IsRefusedBy (map decl declarations.now) (Some violation) result }
{
    match String::from_str(alloc, name_at(declarations, violation.declaration)) {
        Ok(name) => CheckError::Check {
            rule: violation.rule,
            name,
            line: violation.line,
        },
        Err(_) => CheckError::NoMemory,
    }
}
