//! From a source tree to the tree of a program: variables become numbers, statements are numbered, blocks are laid out.

ghost use Rattle.std.specs.Prelude.{◌≡◌, ◌≤◌, IfOk, string_bytes};
ghost use Rattle.meaning.specs.TreeView.{proc, decl, tree, lines, lined, block_lines};
ghost use Rattle.source_tree.specs.Source.{stmts, stmts_of, texts};
ghost use Rattle.source_tree.specs.Source as plain;
ghost use Rattle.source_tree.specs.Lowering.{count_all, body_len, BodiesWithin, lower_proc, body_lines, lowered_decl, lower_decl};
ghost use Rattle.source_tree.specs.Lowering.{lined_decl, lowered_tree, lowered, lines_of, most_statements};
ghost use Rattle.source_tree.specs.Layout.{flats, laid_procedure};

use crate::layout::statements;
use crate::pool::Pool;
use crate::source;
use meaning::tree::{Block, Declaration, Procedure, Program, Reducer};
use std::alloc::{AllocError, Global};

/// The table of a body's blocks; new names go last in the pool.
fn blocks_of(
    alloc: Global,
    pool: &mut Pool,
    body: &[source::Statement],
) -> Result<Vec<Block>, AllocError>
    requires { count_all (stmts_of (stmts body.now)) ≤ most_statements }
    ensures { IfOk result (λ bs. (pool.new, flats bs.items) ≡ laid_procedure pool.old (stmts_of (stmts body.now))) }
{
    let mut last = 0;
    let mut blocks = Vec::new(alloc);
    let statements = statements(alloc, pool, &mut last, &mut blocks, body)?;
    blocks.insert(0, Block { statements })?;
    Ok(blocks)
}

/// The procedure of a program, from that of a source tree with at most 1,048,576 statements. Want of memory is the only error.
pub fn lower_procedure(
    alloc: Global,
    procedure: &source::Procedure,
) -> Result<Procedure, AllocError>
    requires { count_all (stmts_of (stmts procedure.now.body.items)) ≤ most_statements }
    ensures tree { IfOk result (λ p. proc p ≡ lower_proc procedure.now.memo
        (string_bytes procedure.now.name) (texts procedure.now.parameters.items)
        (stmts procedure.now.body.items)) }
    ensures line { IfOk result (λ p. p.line ≡ procedure.now.line) }
    ensures lines { IfOk result (λ p. block_lines p.blocks.items
        ≡ body_lines (stmts_of (stmts procedure.now.body.items))) }
{
    let parameters: &[String] = &procedure.parameters;
    let mut pool = Pool::with_parameters(alloc, parameters)?;
    let blocks = blocks_of(alloc, &mut pool, &procedure.body)?;
    Ok(Procedure {
        name: String::from_str(alloc, &procedure.name)?,
        line: procedure.line,
        memo: procedure.memo,
        parameters: parameters.len(),
        names: pool.into_names(),
        blocks,
    })
}

fn lower_reducer(alloc: Global, reducer: &source::Reducer) -> Result<Reducer, AllocError>
    ensures name { IfOk result (λ r. string_bytes r.name ≡ string_bytes reducer.now.name) }
    ensures line { IfOk result (λ r. r.line ≡ reducer.now.line) }
    ensures kind { IfOk result (λ r. r.kind ≡ reducer.now.kind) }
    ensures initial { IfOk result (λ r. r.initial.items ≡ reducer.now.initial.items) }
{
    Ok(Reducer {
        name: String::from_str(alloc, &reducer.name)?,
        line: reducer.line,
        kind: reducer.kind,
        initial: reducer.initial.to_vec(alloc)?,
    })
}

/// The declaration of a program, from that of a source tree.
fn lower_declaration(
    alloc: Global,
    declaration: &source::Declaration,
) -> Result<Declaration, AllocError>
    requires { body_len (plain.decl declaration.now) ≤ most_statements }
    ensures tree { IfOk result (λ d. lowered_decl (decl d) ≡ lower_decl (plain.decl declaration.now)) }
    ensures lines { IfOk result (λ d. lined d ≡ lined_decl (plain.decl declaration.now)) }
{
    match declaration {
        source::Declaration::Reducer(reducer) => {
            Ok(Declaration::Reducer(lower_reducer(alloc, reducer)?))
        }
        source::Declaration::Procedure(procedure) => {
            Ok(Declaration::Procedure(lower_procedure(alloc, procedure)?))
        }
    }
}

/// The tree of a program, from its source tree, in which no procedure has more than 1,048,576 statements. Want of memory is the only error.
pub fn lower(alloc: Global, source: &[source::Declaration]) -> Result<Program, AllocError>
    requires { BodiesWithin most_statements (plain.source source.now) }
    ensures tree { IfOk result (λ p. lowered_tree (tree p) ≡ lowered (plain.source source.now)) }
    ensures lines { IfOk result (λ p. lines p ≡ lines_of (plain.source source.now)) }
{
    let mut declarations = Vec::with_capacity(alloc, source.len())?;
    for declaration in source {
        declarations.push(lower_declaration(alloc, declaration)?)?;
    }
    Ok(Program { declarations })
}
