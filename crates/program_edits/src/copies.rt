//! Copies of what a program is made of.

ghost use Rattle.std.specs.Prelude.{◌≡◌, IfOk, map, string_bytes};
ghost use Rattle.meaning.specs.Tree.{cell, has, sum, negate, binary};
ghost use Rattle.meaning.specs.TreeView.{term, proc, decl, lined, block_lines};
ghost use Rattle.source_tree.specs.Source.{texts};
ghost use Rattle.source_tree.specs.Layout.{flat_deed, entries, flats, Loop, Enter, Update};

use meaning::tree::{
    Action, Block, Declaration, Expr, Operator, Procedure, Reducer, Statement, Way,
};
use std::alloc::{AllocError, Global};

fn copy_cell(alloc: Global, table: &str, row: Expr, column: &str) -> Result<Expr, AllocError>
    ensures { IfOk result (λ e. term e ≡ cell table.now (term row) column.now) }
{
    let table = String::from_str(alloc, table)?;
    let column = String::from_str(alloc, column)?;
    Ok(Expr::Cell(table, Box::new(alloc, row)?, column))
}

fn copy_has(alloc: Global, table: &str, row: Expr) -> Result<Expr, AllocError>
    ensures { IfOk result (λ e. term e ≡ has table.now (term row)) }
{
    let table = String::from_str(alloc, table)?;
    Ok(Expr::Has(table, Box::new(alloc, row)?))
}

fn copy_sum(alloc: Global, table: &str, column: &str) -> Result<Expr, AllocError>
    ensures { IfOk result (λ e. term e ≡ sum table.now column.now) }
{
    let table = String::from_str(alloc, table)?;
    let column = String::from_str(alloc, column)?;
    Ok(Expr::Sum(table, column))
}

fn copy_negate(alloc: Global, inner: Expr) -> Result<Expr, AllocError>
    ensures { IfOk result (λ e. term e ≡ negate (term inner)) }
{
    Ok(Expr::Negate(Box::new(alloc, inner)?))
}

fn copy_expression(alloc: Global, expr: &Expr) -> Result<Expr, AllocError>
    ensures { IfOk result (λ e. term e ≡ term expr.now) }
{
    match expr {
        Expr::Number(n) => Ok(Expr::Number(*n)),
        Expr::Name(x) => Ok(Expr::Name(*x)),
        Expr::Cell(table, row, column) => {
            let row = copy_expression(alloc, row)?;
            copy_cell(alloc, table, row, column)
        }
        Expr::Has(table, row) => {
            let row = copy_expression(alloc, row)?;
            copy_has(alloc, table, row)
        }
        Expr::Limit(table) => Ok(Expr::Limit(String::from_str(alloc, table)?)),
        Expr::Sum(table, column) => copy_sum(alloc, table, column),
        Expr::Negate(inner) => {
            let inner = copy_expression(alloc, inner)?;
            copy_negate(alloc, inner)
        }
        Expr::Binary(operator, left, right) => {
            let left = copy_expression(alloc, left)?;
            let right = copy_expression(alloc, right)?;
            copy_binary(alloc, *operator, left, right)
        }
    }
}

fn copy_binary(
    alloc: Global,
    operator: Operator,
    left: Expr,
    right: Expr,
) -> Result<Expr, AllocError>
    ensures { IfOk result (λ e. term e ≡ binary operator (term left) (term right)) }
{
    let left = Box::new(alloc, left)?;
    let right = Box::new(alloc, right)?;
    Ok(Expr::Binary(operator, left, right))
}

fn copy_expressions(alloc: Global, exprs: &[Expr]) -> Result<Vec<Expr>, AllocError>
    ensures { IfOk result (λ es. map term es.items ≡ map term exprs.now) }
{
    let mut out = Vec::with_capacity(alloc, exprs.len())?;
    for expr in exprs {
        out.push(copy_expression(alloc, expr)?)?;
    }
    Ok(out)
}

fn copy_loop(
    alloc: Global,
    x: usize,
    low: &Expr,
    high: &Expr,
    grain: u32,
    callee: &str,
    arguments: &[Expr],
) -> Result<Action, AllocError>
    ensures { IfOk result (λ a. flat_deed a ≡ Loop x (term low.now) (term high.now) grain callee.now (map term arguments.now)) }
{
    let low = copy_expression(alloc, low)?;
    let high = copy_expression(alloc, high)?;
    let callee = String::from_str(alloc, callee)?;
    let arguments = copy_expressions(alloc, arguments)?;
    Ok(Action::Loop(x, low, high, grain, callee, arguments))
}

fn copy_enter(
    alloc: Global,
    bound: Option<usize>,
    way: Way,
    callee: &str,
    arguments: &[Expr],
) -> Result<Action, AllocError>
    ensures { IfOk result (λ a. flat_deed a ≡ Enter bound way callee.now (map term arguments.now)) }
{
    let callee = String::from_str(alloc, callee)?;
    let arguments = copy_expressions(alloc, arguments)?;
    Ok(Action::Enter(bound, way, callee, arguments))
}

fn copy_update(alloc: Global, reducer: &str, numbers: &[Expr]) -> Result<Action, AllocError>
    ensures { IfOk result (λ a. flat_deed a ≡ Update reducer.now (map term numbers.now)) }
{
    let reducer = String::from_str(alloc, reducer)?;
    Ok(Action::Update(reducer, copy_expressions(alloc, numbers)?))
}

fn copy_action(alloc: Global, action: &Action) -> Result<Action, AllocError>
    ensures { IfOk result (λ a. flat_deed a ≡ flat_deed action.now) }
{
    match action {
        Action::Bind(x, value) => Ok(Action::Bind(*x, copy_expression(alloc, value)?)),
        Action::Enter(bound, way, callee, arguments) => {
            copy_enter(alloc, *bound, *way, callee, arguments)
        }
        Action::Read(x, reducer) => Ok(Action::Read(*x, String::from_str(alloc, reducer)?)),
        Action::Sync => Ok(Action::Sync),
        Action::Update(reducer, numbers) => copy_update(alloc, reducer, numbers),
        Action::If(condition, first, second) => {
            Ok(Action::If(copy_expression(alloc, condition)?, *first, *second))
        }
        Action::Loop(x, low, high, grain, callee, arguments) => {
            copy_loop(alloc, *x, low, high, *grain, callee, arguments)
        }
        Action::Return(value) => Ok(Action::Return(copy_expression(alloc, value)?)),
    }
}

fn copy_statements(alloc: Global, statements: &[Statement]) -> Result<Vec<Statement>, AllocError>
    ensures { IfOk result (λ ss. entries ss.items ≡ entries statements.now) }
{
    let mut out = Vec::with_capacity(alloc, statements.len())?;
    for statement in statements {
        let action = copy_action(alloc, &statement.action)?;
        out.push(Statement {
            line: statement.line,
            number: statement.number,
            action,
        })?;
    }
    Ok(out)
}

fn copy_blocks(alloc: Global, blocks: &[Block]) -> Result<Vec<Block>, AllocError>
    ensures { IfOk result (λ bs. flats bs.items ≡ flats blocks.now) }
{
    let mut out = Vec::with_capacity(alloc, blocks.len())?;
    for block in blocks {
        let statements = copy_statements(alloc, &block.statements)?;
        out.push(Block { statements })?;
    }
    Ok(out)
}

fn copy_names(alloc: Global, names: &[String]) -> Result<Vec<String>, AllocError>
    ensures { IfOk result (λ xs. texts xs.items ≡ texts names.now) }
{
    let mut out = Vec::with_capacity(alloc, names.len())?;
    for name in names {
        out.push(String::from_str(alloc, name)?)?;
    }
    Ok(out)
}

fn copy_procedure(alloc: Global, procedure: &Procedure) -> Result<Procedure, AllocError>
    ensures tree { IfOk result (λ p. proc p ≡ proc procedure.now) }
    ensures line { IfOk result (λ p. p.line ≡ procedure.now.line) }
    ensures lines { IfOk result (λ p. block_lines p.blocks.items ≡ block_lines procedure.now.blocks.items) }
{
    Ok(Procedure {
        name: String::from_str(alloc, &procedure.name)?,
        line: procedure.line,
        memo: procedure.memo,
        parameters: procedure.parameters,
        names: copy_names(alloc, &procedure.names)?,
        blocks: copy_blocks(alloc, &procedure.blocks)?,
    })
}

fn copy_reducer(alloc: Global, reducer: &Reducer) -> Result<Reducer, AllocError>
    ensures name { IfOk result (λ r. string_bytes r.name ≡ string_bytes reducer.now.name) }
    ensures line { IfOk result (λ r. r.line ≡ reducer.now.line) }
    ensures kind { IfOk result (λ r. r.kind ≡ reducer.now.kind) }
    ensures initial { IfOk result (λ r. r.initial.items ≡ reducer.now.initial.items) }
{
    Ok(Reducer {
        name: String::from_str(alloc, &reducer.name)?,
        line: reducer.line,
        kind: reducer.kind,
        initial: reducer.initial.to_vec(alloc)?,
    })
}

fn copy_declaration(alloc: Global, declaration: &Declaration) -> Result<Declaration, AllocError>
    ensures tree { IfOk result (λ d. decl d ≡ decl declaration.now) }
    ensures lines { IfOk result (λ d. lined d ≡ lined declaration.now) }
{
    match declaration {
        Declaration::Reducer(reducer) => Ok(Declaration::Reducer(copy_reducer(alloc, reducer)?)),
        Declaration::Procedure(procedure) => {
            Ok(Declaration::Procedure(copy_procedure(alloc, procedure)?))
        }
    }
}

/// The declarations again.
pub(crate) fn copy_declarations(
    alloc: Global,
    declarations: &[Declaration],
) -> Result<Vec<Declaration>, AllocError>
    ensures tree { IfOk result (λ ds. map decl ds.items ≡ map decl declarations.now) }
    ensures lines { IfOk result (λ ds. map lined ds.items ≡ map lined declarations.now) }
{
    let mut out = Vec::with_capacity(alloc, declarations.len())?;
    for declaration in declarations {
        out.push(copy_declaration(alloc, declaration)?)?;
    }
    Ok(out)
}
