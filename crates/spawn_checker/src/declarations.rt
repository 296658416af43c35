//! The first violation of a program's declarations.
ghost use Rattle.std.specs.Prelude.{◌≡◌, ◌<◌, map, length, IfOk};
ghost use Rattle.meaning.specs.TreeView.{decl, proc, block_lines, lined};
ghost use Rattle.linked_program.specs.TableNames.{columned};
ghost use Rattle.linked_program.specs.Declarations.{proc_violations, decl_violations, missing_main, violations};
ghost use Rattle.linked_program.specs.Violations.{noted, first_of};

use crate::walk::note_block;
use linked_program::tables::TableNames;
use linked_program::violation::{Rule, Violation};
use meaning::tree::{Declaration, Procedure};
use single_rules::heads::{note_head, note_reducer};
use single_rules::lines::LineTable;
use single_rules::location::{Location, note_if};
use single_rules::names::parameters_of;
use single_rules::scope::Scope;
use single_rules::setting::Setting;
use std::alloc::{AllocError, Global};

// The first violation so far, or that of a procedure's body.
fn note_body(
    alloc: Global,
    first: Option<Violation>,
    declarations: &[Declaration],
    tables: &[TableNames],
    declaration: usize,
    procedure: &Procedure,
) -> Result<Option<Violation>, AllocError>
    ensures { IfOk result (λ found. found ≡ noted first
        (proc_violations (map decl declarations.now) (map columned tables.now) declaration (proc procedure.now)
        (block_lines procedure.now.blocks.items))) }
{
    let mut scope = Scope::new(alloc, procedure.parameters, procedure.names.len())?;
    let lines = LineTable::new(alloc, &procedure.blocks)?;
    let setting = Setting {
        declarations,
        tables,
        in_main: procedure.name.as_str() == "main",
        declaration,
        lines,
    };
    let levels = procedure.blocks.len();
    Ok(note_block(&setting, first, &mut scope, 0, &procedure.blocks, levels, 0))
}

// The first violation so far, or that of a declaration that comes after so many others.
#[tactic(auto, using(single_rules::proofs::Noting::noted_append))]
fn note_declaration(
    alloc: Global,
    first: Option<Violation>,
    declarations: &[Declaration],
    tables: &[TableNames],
    number: usize,
    declaration: &Declaration,
) -> Result<Option<Violation>, AllocError>
    requires { number < length declarations.now }
    ensures { IfOk result (λ found. found ≡ noted first
        (decl_violations (map decl declarations.now) (map columned tables.now) number (decl declaration.now) (lined declaration.now))) }
{
    let before = &declarations[..number];
    match declaration {
        Declaration::Reducer(reducer) => {
            let location = Location {
                declaration: number + 1,
                line: reducer.line,
            };
            Ok(note_reducer(first, location, before, reducer))
        }
        Declaration::Procedure(procedure) => {
            let location = Location {
                declaration: number + 1,
                line: procedure.line,
            };
            let first = note_head(first, location, before, procedure);
            note_body(alloc, first, declarations, tables, number + 1, procedure)
        }
    }
}

// The violation of a program without `main`, if it has none.
fn note_missing(declarations: &[Declaration]) -> Option<Violation>
    ensures { result ≡ first_of (missing_main (map decl declarations.now)) }
{
    let location = Location {
        declaration: 0,
        line: 0,
    };
    let is_missing = parameters_of(declarations, "main").is_none();
    note_if(None, is_missing, location, Rule::Main)
}

/// The first violation of declarations, by the names of these tables.
#[tactic(auto, using(single_rules::proofs::Noting::noted_append))]
pub(crate) fn first_violation(
    alloc: Global,
    declarations: &[Declaration],
    tables: &[TableNames],
) -> Result<Option<Violation>, AllocError>
    ensures { IfOk result (λ found. found ≡ first_of
        (violations (map columned tables.now) (map decl declarations.now)
        (map lined declarations.now))) }
{
    let mut found = note_missing(declarations);
    for (number, declaration) in declarations.iter().enumerate() {
        found = note_declaration(alloc, found, declarations, tables, number, declaration)?;
    }
    Ok(found)
}
