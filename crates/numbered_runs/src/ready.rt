//! What a run begins with keeps by its types all that the theory asks for.
ghost use Rattle.std.specs.Prelude.{List, All};
ghost use Rattle.monoid_laws.specs.Kinds.{IsMonoid};
ghost use Rattle.meaning.specs.Records.{Kept, IsSound};
ghost use Rattle.meaning.specs.Schedules.{recording_from};
ghost use Rattle.trail_theory.specs.Order.{Every};
ghost use Rattle.trail_theory.specs.OpenLayers.{IsNumbered};
ghost use Rattle.strand_theory.specs.Ready.{IsReady};
ghost use Rattle.linked_program.specs.Checked.{IsChecked, revised_of};

use input_tables::Tables;
use linked_program::checked::Checked;
use rules_theory::{checked_programs_are_numbered, checked_programs_keep_the_rules};

/// What the theory asks for of a checked program and its tables. It takes time in proportion to the number of tables.
pub fn are_ready(program: &Checked, tables: &Tables)
    ensures ready { (kept : List Kept) → Every (IsSound (revised_of program.now)) kept
        → IsReady (revised_of program.now) tables.now.tables (recording_from kept) }
    ensures numbered { IsNumbered (revised_of program.now) }
    ensures checked { IsChecked program.now }
    ensures monoids { All IsMonoid program.now.kinds }
{
    // Each of these lends what the type of its argument keeps; the two laws at the end make the clauses of it.
    program.clean();
    program.linked();
    program.revised();
    program.fitting();
    tables.cells_fit();
    checked_programs_keep_the_rules();
    checked_programs_are_numbered();
}
