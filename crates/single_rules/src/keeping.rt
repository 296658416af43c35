//! Whether a procedure keeps its revision number.
ghost use Rattle.std.specs.Prelude.{◌≡◌};
ghost use Rattle.meaning.specs.TreeView.{proc};
ghost use Rattle.linked_program.specs.Checked.{revised_of};
ghost use Rattle.single_rules.specs.Kept.{kept_revision};

use crate::names::find_procedure;
use linked_program::checked::Checked;
use meaning::tree::Procedure;
use rule_parts::procedures::is_as_it_was;

/// The revision number of a procedure that is as it was.
pub fn kept_revision(old: &Checked, procedure: &Procedure) -> Option<u64>
    ensures { result ≡ kept_revision (revised_of old.now) (proc procedure.now) }
{
    old.revised();
    match find_procedure(&old.program().declarations, procedure.name.as_str()) {
        None => None,
        Some(before) => {
            if is_as_it_was(before, procedure) {
                old.revision(procedure.name.as_str())
            } else {
                None
            }
        }
    }
}
