//! The revision numbers of procedures.
ghost use Rattle.std.specs.Prelude.{◌≡◌, ◌∷◌, ◌++◌, [], map, IfOk};
ghost use Rattle.meaning.specs.TreeView.{decl};
ghost use Rattle.meaning.specs.Edits.{revised};
ghost use Rattle.linked_program.specs.Checked.{numbers_in, nothing};

use meaning::tree::Declaration;
use std::alloc::{AllocError, Global};

/// The procedures' names in their order, each with its revision number, and the least number that was never used.
#[derive(Drop)]
pub struct Numbers {
    pub revisions: Vec<(String, u64)>,
    pub counter: u64,
}

/// Puts a procedure's name with its revision number behind those before it.
pub(crate) fn put_revision(
    alloc: Global,
    revisions: &mut Vec<(String, u64)>,
    name: &str,
    revision: u64,
) -> Result<(), AllocError>
    ensures put { IfOk result (λ _. numbers_in revisions.new.items
        ≡ numbers_in revisions.old.items ++ (name.now, revision) ∷ []) }
{
    let name = String::from_str(alloc, name)?;
    revisions.push((name, revision))?;
    Ok(())
}

/// The first revision numbers of a program's procedures: in their order from 0 on.
pub(crate) fn first_revisions(
    alloc: Global,
    declarations: &[Declaration],
) -> Result<Numbers, AllocError>
    ensures numbers { IfOk result (λ made. (numbers_in made.revisions.items, made.counter)
        ≡ revised nothing (map decl declarations.now) 0) }
{
    let mut revisions = Vec::new(alloc);
    let mut counter: u64 = 0;
    for declaration in declarations {
        if let Declaration::Procedure(procedure) = declaration {
            put_revision(alloc, &mut revisions, procedure.name.as_str(), counter)?;
            counter += 1;
        }
    }
    Ok(Numbers { revisions, counter })
}
