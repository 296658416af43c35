//! Procedures that are `main`, and procedures that are as they were.
ghost use Rattle.std.specs.Prelude.{◌≡◌, ◌&&◌, ◌||◌, nat_eq, nat_lt};
ghost use Rattle.std.specs.Str.{bytes_eq};
ghost use Rattle.meaning.specs.TreeView.{proc};
ghost use Rattle.meaning.specs.Edits.{most, same_proc};
ghost use Rattle.meaning.specs.Elision.{main};

use meaning::tree::Procedure;
use tree_equality::same_procedure;

/// Whether it is a `main` that is recorded or has parameters.
pub fn is_recorded_main(procedure: &Procedure) -> bool
    ensures { result ≡ (bytes_eq (proc procedure.now).called main && (procedure.now.memo || nat_lt 0 procedure.now.parameters)) }
{
    procedure.name.as_str() == "main" && (procedure.memo || procedure.parameters > 0)
}

/// Whether the procedure of a name is as it was.
pub fn is_as_it_was(before: &Procedure, procedure: &Procedure) -> bool
    ensures { result ≡ same_proc (proc before.now) (proc procedure.now) }
{
    same_procedure(before, procedure)
}

/// Whether no number comes after this one.
pub fn is_last_number(counter: u64) -> bool
    ensures { result ≡ nat_eq counter most }
{
    counter == u64::MAX
}
