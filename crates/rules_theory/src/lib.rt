//! What the rules of the language give the theory of the trail, each as the contract of a function that does nothing.
#![tactic(auto)]

ghost use Rattle.std.specs.Prelude.{◌≡◌, ℤ, List, All, Ok};
ghost use Rattle.monoid_laws.specs.Kinds.{IsMonoid};
ghost use Rattle.meaning.specs.Tree.{Name};
ghost use Rattle.meaning.specs.declared.tree.Program.{Program};
ghost use Rattle.meaning.specs.Edits.{Standing, after_put, after_delete};
ghost use Rattle.meaning.specs.TreeView.{tree};
ghost use Rattle.linked_program.specs.TableNames.{Columned, columned_of};
ghost use Rattle.linked_program.specs.Declarations.{IsClean};
ghost use Rattle.linked_program.specs.Checked.{PlainChecked, IsChecked, revised_of};
ghost use Rattle.trail_theory.specs.Defines.{IsComplete};
ghost use Rattle.trail_theory.specs.OpenLayers.{IsNumbered};
ghost use Rattle.trail_theory.specs.ReadsAtEnd.{ReadsAtMainsEnd, KeepsRules};
ghost use Rattle.trail_theory.specs.Typed.{HasMonoids};
ghost use Rattle.trail_theory.specs.Waiting.{UsesNoWaitingName};

/// In a program that breaks no rule no statement uses a name that waits for a spawned child.
pub fn no_waiting_name_is_used()
    ensures free { (tables : List Columned) (program : Program) → IsClean tables program
        → UsesNoWaitingName (tree program) }
{}

/// In a program that breaks no rule main alone reads reducers, at its end, and nothing enters or records main.
pub fn main_reads_at_its_end()
    ensures reads { (tables : List Columned) (program : Program) → IsClean tables program
        → ReadsAtMainsEnd (tree program) }
{}

/// A program that breaks no rule keeps the rules of the theory.
pub fn rules_are_kept()
    ensures kept { (tables : List Columned) (program : Program) → IsClean tables program
        → KeepsRules (tree program) }
{}

/// In a program that breaks no rule the operation of each table reducer is a monoid.
pub fn tables_are_monoids()
    ensures monoids { (tables : List Columned) (program : Program) → IsClean tables program
        → HasMonoids (tree program) }
{}

/// A checked program keeps the rules of the theory, its table reducers are monoids, and so are the kinds that it keeps.
pub fn checked_programs_keep_the_rules()
    ensures kept { (checked : PlainChecked) → IsChecked checked
        → KeepsRules (tree checked.program) }
    ensures monoids { (checked : PlainChecked) → IsChecked checked
        → HasMonoids (tree checked.program) }
    ensures kinds { (checked : PlainChecked) → IsChecked checked → All IsMonoid checked.kinds }
{}

/// In a program that breaks no rule each procedure that is called, spawned or looped over is there.
pub fn clean_programs_are_complete()
    ensures complete { (tables : List Columned) (program : Program) → IsClean tables program
        → IsComplete (tree program) }
{}

/// The procedures of a checked program have revision numbers, each of which was used before.
pub fn checked_programs_are_numbered()
    ensures numbered { (checked : PlainChecked) → IsChecked checked
        → IsNumbered (revised_of checked) }
{}

/// An accepted edit of a table changes no name of a table or column.
pub fn edits_keep_columns()
    ensures put { (old new : Standing) (table : Name) (row : ℤ) (values : List ℤ)
        → after_put old table row values ≡ Ok new
        → columned_of new.tables ≡ columned_of old.tables }
    ensures delete { (old new : Standing) (table : Name) (row : ℤ)
        → after_delete old table row ≡ Ok new → columned_of new.tables ≡ columned_of old.tables }
{}
