//! Makes a checked program of one that breaks no rule.
ghost use Rattle.std.specs.Prelude.{◌≡◌, ◌<◌, All, map, IfOk};
ghost use Rattle.meaning.specs.TreeView.{tree};
ghost use Rattle.linked_program.specs.TableNames.{columned};
ghost use Rattle.linked_program.specs.Declarations.{IsClean};
ghost use Rattle.linked_program.specs.Procedures.{procedures};
ghost use Rattle.linked_program.specs.Checked.{numbers_in, names_in};

use linked_program::checked::Checked;
use linked_program::initial::initials;
use linked_program::linking::{codes, kinds};
use linked_program::tables::TableNames;
use meaning::tree::Program;
use std::alloc::{AllocError, Global};

/// The checked program of one that breaks no rule, with these revision numbers of its procedures.
pub(crate) fn linked(
    alloc: Global,
    program: Program,
    tables: Vec<TableNames>,
    revisions: Vec<(String, u64)>,
    counter: u64,
) -> Result<Checked, AllocError>
    requires clean { IsClean (map columned tables.items) program }
    requires each { names_in (numbers_in revisions.items)
        ≡ map (λ p. p.called) (procedures (tree program)) }
    requires below { All (λ e. e.1 < counter) (numbers_in revisions.items) }
    ensures program { IfOk result (λ checked. checked.program ≡ program) }
    ensures tables { IfOk result (λ checked. checked.tables ≡ map columned tables.items) }
    ensures revisions { IfOk result (λ checked. checked.revisions ≡ numbers_in revisions.items) }
    ensures counter { IfOk result (λ checked. checked.counter ≡ counter) }
{
    let codes = codes(alloc, &program.declarations, &tables)?;
    let kinds = kinds(alloc, &program.declarations)?;
    let initials = initials(alloc, &program.declarations)?;
    Ok(Checked::new(program, tables, codes, kinds, initials, revisions, counter))
}
