//! Which names are known at a statement, and which were bound before it.

use meaning::tree::{Action, Block, Expr, Procedure};
use std::alloc::{AllocError, Global};

// How many blocks are nested at most, as programs have them.
const MOST_NESTED: u32 = 32;

/// Which of a procedure's names are known at the statement of that number, which stands in the block of that number. Want of memory is
/// the only error.
pub(crate) fn known_at(
    alloc: Global,
    procedure: &Procedure,
    block: usize,
    number: u32,
) -> Result<Vec<bool>, AllocError> {
    let names = procedure.names.len();
    let mut known = Vec::new(alloc);
    known.resize(procedure.parameters.min(names), true)?;
    known.resize(names, false)?;
    let mut around = Some(block);
    for _ in 0..MOST_NESTED {
        let Some(block) = around else {
            return Ok(known);
        };
        if let Some(block) = procedure.blocks.get(block) {
            learn(&mut known, block, number);
        }
        around = block_around(&procedure.blocks, block);
    }
    Ok(known)
}

// Names that statements of a block bind which have lesser numbers become known; those of loops don't.
fn learn(known: &mut Vec<bool>, block: &Block, number: u32) {
    for statement in &block.statements {
        if statement.number < number {
            if let Some(name) = named_by(&statement.action) {
                tell(known, name);
            }
        }
    }
}

/// A name becomes known.
pub(crate) fn tell(known: &mut Vec<bool>, name: usize) {
    if name < known.len() {
        known[name] = true;
    }
}

// The name that is known behind a statement.
fn named_by(action: &Action) -> Option<usize> {
    match action {
        Action::Bind(name, _) | Action::Read(name, _) => Some(*name),
        Action::Enter(name, _, _, _) => *name,
        _ => None,
    }
}

/// The name that a statement binds, a loop's variable too.
pub(crate) fn bound_by(action: &Action) -> Option<usize> {
    match action {
        Action::Loop(name, _, _, _, _, _) => Some(*name),
        _ => named_by(action),
    }
}

// The number of the block that has the one of that number inside.
fn block_around(blocks: &[Block], inner: usize) -> Option<usize> {
    for (number, block) in blocks.iter().enumerate() {
        for statement in &block.statements {
            if let Action::If(_, first, second) = &statement.action {
                if *first == inner || *second == inner {
                    return Some(number);
                }
            }
        }
    }
    None
}

/// The line of the first statement that binds a name in front of the one of that number.
pub(crate) fn line_of_bind(procedure: &Procedure, name: usize, number: u32) -> Option<u32> {
    for block in &procedure.blocks {
        for statement in &block.statements {
            if statement.number < number && bound_by(&statement.action) == Some(name) {
                return Some(statement.line);
            }
        }
    }
    None
}

/// The first name of an expression that isn't among the known ones.
pub(crate) fn unknown_in(expression: &Expr, known: &[bool]) -> Option<usize> {
    match expression {
        Expr::Name(name) => {
            if known.get(*name) == Some(&true) {
                return None;
            }
            Some(*name)
        }
        Expr::Cell(_, row, _) => unknown_in(row, known),
        Expr::Has(_, row) => unknown_in(row, known),
        Expr::Negate(inner) => unknown_in(inner, known),
        Expr::Binary(_, left, right) => match unknown_in(left, known) {
            Some(name) => Some(name),
            None => unknown_in(right, known),
        },
        Expr::Number(_) | Expr::Limit(_) | Expr::Sum(_, _) => None,
    }
}

/// The first such name of these expressions.
pub(crate) fn unknown_among(expressions: &[Expr], known: &[bool]) -> Option<usize> {
    for expression in expressions {
        if let Some(name) = unknown_in(expression, known) {
            return Some(name);
        }
    }
    None
}
