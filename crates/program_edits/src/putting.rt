//! Puts procedures into a program.

ghost use Rattle.std.specs.Prelude.{◌≡◌, ◌<◌, IfOk, IfSome, None, [], map, length, string_bytes};
ghost use Rattle.meaning.specs.TreeView.{proc, decl, tree, lined, lines, block_lines};
ghost use Rattle.meaning.specs.Tree as plain;
ghost use Rattle.meaning.specs.declared.tree.Declaration.TheVariants as variant;
ghost use Rattle.source_tree.specs.Source as written;
ghost use Rattle.source_tree.specs.Lowering.{BodiesWithin, most_statements};
ghost use Rattle.program_edits.specs.Putting.{is_in, is_procedure, last_place, spot_of, put_at, put_all};

use crate::copies::copy_declarations;
use meaning::tree::{Declaration, Procedure, Program};
use source_tree::lower_procedure;
use std::alloc::{AllocError, Global};

fn is_in(names: &[&str], name: &str) -> bool
    ensures { result ≡ is_in name.now (map (λ x. x.now) names.now) }
{
    for other in names {
        if *other == name {
            return true;
        }
    }
    false
}

fn is_procedure(declaration: &Declaration, name: &str) -> bool
    ensures { result ≡ is_procedure name.now (decl declaration.now) }
{
    match declaration {
        Declaration::Reducer(_) => false,
        Declaration::Procedure(procedure) => procedure.name.as_str() == name,
    }
}

/// The place of the last procedure of a name.
fn last_place(declarations: &[Declaration], name: &str) -> Option<usize>
    ensures exact { result ≡ last_place 0 None name.now (map decl declarations.now) }
    ensures there { IfSome result (λ n. n < length declarations.now) }
{
    let mut found = None;
    for (place, declaration) in declarations.iter().enumerate() {
        if is_procedure(declaration, name) {
            found = Some(place);
        }
    }
    found
}

/// Puts a procedure in its place among the declarations; again says that the text had one of its name before.
fn put(
    declarations: &mut Vec<Declaration>,
    again: bool,
    procedure: Procedure,
) -> Result<(), AllocError>
    ensures tree { IfOk result (λ _. map decl declarations.new.items
        ≡ put_at (spot_of again (last_place 0 None (string_bytes procedure.name) (map decl declarations.old.items)))
        (plain.procedure (proc procedure)) (map decl declarations.old.items)) }
    ensures lines { IfOk result (λ _. map lined declarations.new.items
        ≡ put_at (spot_of again (last_place 0 None (string_bytes procedure.name) (map decl declarations.old.items)))
        (lined (variant.Procedure procedure)) (map lined declarations.old.items)) }
{
    let place = last_place(declarations, &procedure.name);
    let declaration = Declaration::Procedure(procedure);
    match place {
        None => declarations.push(declaration)?,
        Some(place) => {
            if again {
                declarations.insert(place + 1, declaration)?;
            } else {
                declarations[place] = declaration;
            }
        }
    }
    Ok(())
}

/// The program with the procedures of a source tree put in: each in the place of the one of its name, a new name last, a second
/// one of a name behind the first. Each keeps the lines of its own text, and has at most 1,048,576 statements. Want of memory
/// is the only error.
pub fn with_procedures(
    alloc: Global,
    program: &Program,
    source: &[source_tree::Declaration],
) -> Result<Program, AllocError>
    requires { BodiesWithin most_statements (written.source source.now) }
    ensures { IfOk result (λ p. (tree p, lines p)
        ≡ put_all [] (written.source source.now) (tree program.now, lines program.now)) }
{
    let mut declarations = copy_declarations(alloc, &program.declarations)?;
    let mut seen: Vec<&str> = Vec::with_capacity(alloc, source.len())?;
    for declaration in source {
        if let source_tree::Declaration::Procedure(procedure) = declaration {
            let again = is_in(&seen, &procedure.name);
            put(&mut declarations, again, lower_procedure(alloc, procedure)?)?;
            seen.push(&procedure.name)?;
        }
    }
    Ok(Program { declarations })
}
