//! Whether two procedures have the same tree.
ghost use Rattle.std.specs.Prelude.{◌≡◌, map, string_bytes};
ghost use Rattle.meaning.specs.TreeView.{proc};
ghost use Rattle.meaning.specs.Edits.{same_names as same_name_lists, same_proc, same_mark as same_marks};

use crate::actions::same_block;
use meaning::tree::Procedure;

fn same_mark(left: bool, right: bool) -> bool
    ensures { result ≡ same_marks left right }
{
    if left { right } else { !right }
}

fn same_names(left: &[String], right: &[String]) -> bool
    ensures { result ≡ same_name_lists (map string_bytes left.now) (map string_bytes right.now) }
{
    if left.len() != right.len() {
        return false;
    }
    for i in 0..left.len() {
        if left[i].as_str() != right[i].as_str() {
            return false;
        }
    }
    true
}

/// Whether two procedures have the same memo mark, parameters, names and statements; their own names and lines are passed over.
pub fn same_procedure(left: &Procedure, right: &Procedure) -> bool
    ensures { result ≡ same_proc (proc left.now) (proc right.now) }
{
    same_mark(left.memo, right.memo)
        && left.parameters == right.parameters
        && same_names(&left.names, &right.names)
        && same_block(
            &left.blocks,
            left.blocks.len(),
            0,
            &right.blocks,
            right.blocks.len(),
            0,
        )
}
