//! Procedures whose iterations may be recorded in one go.
ghost use Rattle.std.specs.Prelude.{◌≡◌, true};
ghost use Rattle.linked_program.specs.CodeView.{memo_of};

use linked_program::checked::Checked;

/// Whether iterations of that procedure may be recorded in one go: it is marked memo, and as a hint says does all of its statements by
/// itself. Nothing is claimed of the hint: an instance that can't do a statement by itself is seen when it comes to that.
#[inline(always)]
pub fn are_recorded(program: &Checked, procedure: usize) -> bool
    ensures memo { result ≡ true → memo_of program.now.codes procedure ≡ true }
{
    program.is_memo(procedure) && program.hints(procedure).alone
}

/// The same of iterations one after another, which no other worker could take: they may also call procedures that call themselves alone.
#[inline(always)]
pub fn are_recorded_in_turn(program: &Checked, procedure: usize) -> bool
    ensures memo { result ≡ true → memo_of program.now.codes procedure ≡ true }
{
    program.is_memo(procedure) && program.hints(procedure).found
}
