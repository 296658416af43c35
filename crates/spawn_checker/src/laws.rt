//! What follows from the definitions alone, each as the contract of a function that does nothing.
ghost use Rattle.std.specs.Prelude.{◌≡◌, ◌<◌, ◌↔◌, ℕ, List, Some, true, All};
ghost use Rattle.meaning.specs.Tree.{Tree};
ghost use Rattle.meaning.specs.Edits.{revised};
ghost use Rattle.linked_program.specs.Procedures.{procedures};
ghost use Rattle.linked_program.specs.Checked.{revised_of};
ghost use Rattle.input_tables.specs.Names.{is_name};
ghost use Rattle.spawn_checker.specs.Renumbered.{AreKeptOrNew};
ghost use Rattle.spawn_checker.specs.Scanned.{scanned};

use linked_program::checked::Checked;

/// The revision numbers that a program gets in the place of another: those of procedures that are as they were, lines aside,
/// and for the others numbers from the old counter on, each once; all lie below the new counter.
pub fn numbers_are_kept_or_new(old: &Checked)
    ensures kept_or_new { (t : Tree) → AreKeptOrNew (revised_of old.now) old.now.counter
        (procedures t) (revised (revised_of old.now) t old.now.counter).0 }
    ensures below { (t : Tree) → All (λ e. e.1 < (revised (revised_of old.now) t old.now.counter).1)
        (revised (revised_of old.now) t old.now.counter).0 }
{
    old.revised();
}

/// A text is a name that a table or a column may have exactly where the scanner of programs takes it whole for a name.
pub fn table_names_are_scanned()
    ensures names { (x : List ℕ) → (is_name x ≡ true) ↔ (scanned x ≡ Some x) }
{}
