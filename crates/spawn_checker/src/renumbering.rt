//! The revision numbers of a program that takes the place of another.
ghost use Rattle.std.specs.Prelude.{◌≡◌, ◌<◌, map, IfOk, IfSome, IfNone};
ghost use Rattle.meaning.specs.TreeView.{decl};
ghost use Rattle.meaning.specs.Edits.{most, revised};
ghost use Rattle.linked_program.specs.Checked.{revised_of, numbers_in};

use crate::revisions::{Numbers, put_revision};
use linked_program::checked::Checked;
use meaning::tree::{Declaration, Procedure};
use rule_parts::procedures::is_last_number;
use single_rules::keeping::kept_revision;
use std::alloc::{AllocError, Global};

/// The revision numbers of declarations' procedures in the place of a program; none where a new one would not fit.
pub(crate) fn next_revisions(
    alloc: Global,
    old: &Checked,
    declarations: &[Declaration],
) -> Result<Option<Numbers>, AllocError>
    ensures numbers { IfOk result (λ found. IfSome found
        (λ made. (numbers_in made.revisions.items, made.counter)
        ≡ revised (revised_of old.now) (map decl declarations.now) old.now.counter)) }
    ensures exhausted { IfOk result (λ found. IfNone found
        (most < (revised (revised_of old.now) (map decl declarations.now) old.now.counter).1)) }
{
    let mut revisions = Vec::new(alloc);
    let mut counter = old.counter();
    for declaration in declarations {
        if let Declaration::Procedure(procedure) = declaration {
            let name = procedure.name.as_str();
            match kept_revision(old, procedure) {
                Some(revision) => put_revision(alloc, &mut revisions, name, revision)?,
                None => {
                    if is_last_number(counter) {
                        return Ok(None);
                    }
                    put_revision(alloc, &mut revisions, name, counter)?;
                    counter += 1;
                }
            }
        }
    }
    Ok(Some(Numbers { revisions, counter }))
}
