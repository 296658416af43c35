//! Lays out a procedure's statements: numbers them, and puts their blocks into a table.

ghost use Rattle.std.specs.Prelude.{◌≡◌, ℕ, ◌+◌, ◌≤◌, IfOk, [], map, string_bytes, length};
ghost use Rattle.source_tree.specs.Source.{phrase, phrases, option_text, stmt, stmts, stmts_of, Binds, Enters, Reads, Updates, Tests, Loops};
ghost use Rattle.source_tree.specs.Lowering.{count, count_all, most_statements};
ghost use Rattle.source_tree.specs.Layout.{laid_plain, laid_deed, laid_block, laid, flat_deed, entries, flats};

use crate::pool::Pool;
use crate::source::{self, line_of};
use crate::terms::{lower_expression, lower_expressions, number_of_bound};
use meaning::tree::{Action, Block, Expr, Statement, Way};
use std::alloc::{AllocError, Global};

fn bind(alloc: Global, pool: &mut Pool, x: &str, value: &source::Expr) -> Result<Action, AllocError>
    ensures { IfOk result (λ a. (pool.new, flat_deed a) ≡ laid_plain pool.old (Binds 0 x.now (phrase value.now))) }
{
    let number = pool.number_of(alloc, x)?;
    Ok(Action::Bind(number, lower_expression(alloc, pool, value)?))
}

fn enter(
    alloc: Global,
    pool: &mut Pool,
    bound: &Option<String>,
    way: Way,
    callee: &str,
    arguments: &[source::Expr],
) -> Result<Action, AllocError>
    ensures { IfOk result (λ a. (pool.new, flat_deed a) ≡ laid_plain pool.old (Enters 0 (option_text bound.now) way callee.now (phrases arguments.now))) }
{
    let number = number_of_bound(alloc, pool, bound)?;
    let arguments = lower_expressions(alloc, pool, arguments)?;
    let callee = String::from_str(alloc, callee)?;
    Ok(Action::Enter(number, way, callee, arguments))
}

fn read(alloc: Global, pool: &mut Pool, x: &str, reducer: &str) -> Result<Action, AllocError>
    ensures { IfOk result (λ a. (pool.new, flat_deed a) ≡ laid_plain pool.old (Reads 0 x.now reducer.now)) }
{
    let number = pool.number_of(alloc, x)?;
    Ok(Action::Read(number, String::from_str(alloc, reducer)?))
}

fn update(
    alloc: Global,
    pool: &mut Pool,
    reducer: &str,
    numbers: &[source::Expr],
) -> Result<Action, AllocError>
    ensures { IfOk result (λ a. (pool.new, flat_deed a) ≡ laid_plain pool.old (Updates 0 reducer.now (phrases numbers.now))) }
{
    let numbers = lower_expressions(alloc, pool, numbers)?;
    Ok(Action::Update(String::from_str(alloc, reducer)?, numbers))
}

/// The numbers that a loop counts: those between two values, of which so many go into a strand.
#[derive(Clone, Copy)]
struct Counted<'a> {
    low: &'a source::Expr,
    high: &'a source::Expr,
    grain: u32,
}

fn loop_over(
    alloc: Global,
    pool: &mut Pool,
    x: &str,
    counted: Counted<'_>,
    callee: &str,
    arguments: &[source::Expr],
) -> Result<Action, AllocError>
    ensures { IfOk result (λ a. (pool.new, flat_deed a)
        ≡ laid_plain pool.old (Loops 0 x.now (phrase counted.entry.low.now) (phrase counted.entry.high.now) counted.entry.grain callee.now
        (phrases arguments.now))) }
{
    let number = pool.number_of(alloc, x)?;
    let callee = String::from_str(alloc, callee)?;
    let low = lower_expression(alloc, pool, counted.low)?;
    let high = match lower_expression(alloc, pool, counted.high) {
        Ok(high) => high,
        Err(refused) => return Err(without(low, refused)),
    };
    match lower_expressions(alloc, pool, arguments) {
        Ok(arguments) => Ok(Action::Loop(number, low, high, counted.grain, callee, arguments)),
        Err(refused) => Err(without(low, without(high, refused))),
    }
}

// The refusal, where what was made before is let go.
fn without(_made: Expr, refused: AllocError) -> AllocError
    ensures { result ≡ refused }
{
    refused
}

#[cycle(laying)]
fn choice(
    alloc: Global,
    pool: &mut Pool,
    last: &mut u32,
    blocks: &mut Vec<Block>,
    condition: &source::Expr,
    first: &[source::Statement],
    second: &[source::Statement],
) -> Result<Action, AllocError>
    requires { last.old + count_all (stmts_of (stmts first.now)) + count_all (stmts_of (stmts second.now)) ≤ most_statements }
    ensures made { IfOk result (λ a. ((pool.new, last.new, flats blocks.new.items), flat_deed a)
        ≡ laid_deed (pool.old, last.old, flats blocks.old.items)
        (Tests 0 (phrase condition.now) (stmts_of (stmts first.now)) (stmts_of (stmts second.now)))) }
    ensures counted { IfOk result (λ a. last.new ≡ last.old + count_all (stmts_of (stmts first.now)) + count_all (stmts_of (stmts second.now))) }
{
    let condition = lower_expression(alloc, pool, condition)?;
    let first = block(alloc, pool, last, blocks, first)?;
    let second = block(alloc, pool, last, blocks, second)?;
    Ok(Action::If(condition, first, second))
}

#[cycle(laying)]
fn action(
    alloc: Global,
    pool: &mut Pool,
    last: &mut u32,
    blocks: &mut Vec<Block>,
    statement: &source::Statement,
) -> Result<Action, AllocError>
    requires { last.old + count (stmt statement.now) ≤ 1048577 }
    ensures made { IfOk result (λ a. ((pool.new, last.new, flats blocks.new.items), flat_deed a)
        ≡ laid_deed (pool.old, last.old, flats blocks.old.items) (stmt statement.now)) }
    ensures counted { IfOk result (λ a. last.new + 1 ≡ last.old + count (stmt statement.now)) }
{
    match statement {
        source::Statement::Bind(_, x, value) => bind(alloc, pool, x, value),
        source::Statement::Enter(_, bound, way, callee, arguments) => {
            enter(alloc, pool, bound, *way, callee, arguments)
        }
        source::Statement::Read(_, x, reducer) => read(alloc, pool, x, reducer),
        source::Statement::Sync(_) => Ok(Action::Sync),
        source::Statement::Update(_, reducer, numbers) => update(alloc, pool, reducer, numbers),
        source::Statement::If(_, condition, first, second) => {
            choice(alloc, pool, last, blocks, condition, first, second)
        }
        source::Statement::Loop(_, x, low, high, grain, callee, arguments) => {
            let counted = Counted {
                low,
                high,
                grain: *grain,
            };
            loop_over(alloc, pool, x, counted, callee, arguments)
        }
        source::Statement::Return(_, value) => {
            Ok(Action::Return(lower_expression(alloc, pool, value)?))
        }
    }
}

/// A block's statements, numbered behind the last one; the blocks inside them go into the table.
#[cycle(laying)]
pub(crate) fn statements(
    alloc: Global,
    pool: &mut Pool,
    last: &mut u32,
    blocks: &mut Vec<Block>,
    body: &[source::Statement],
) -> Result<Vec<Statement>, AllocError>
    requires { last.old + count_all (stmts_of (stmts body.now)) ≤ most_statements }
    ensures made { IfOk result (λ ss.
        ((pool.new, last.new, flats blocks.new.items), entries ss.items)
        ≡ laid ((pool.old, last.old, flats blocks.old.items), []) (stmts_of (stmts body.now))) }
    ensures counted { IfOk result (λ ss. last.new ≡ last.old + count_all
        (stmts_of (stmts body.now))) }
{
    let mut out = Vec::with_capacity(alloc, body.len())?;
    for statement in body {
        *last += 1;
        let number = *last;
        let line = line_of(statement);
        let action = action(alloc, pool, last, blocks, statement)?;
        out.push(Statement {
            line,
            number,
            action,
        })?;
    }
    Ok(out)
}

#[cycle(laying)]
fn block(
    alloc: Global,
    pool: &mut Pool,
    last: &mut u32,
    blocks: &mut Vec<Block>,
    body: &[source::Statement],
) -> Result<usize, AllocError>
    requires { last.old + count_all (stmts_of (stmts body.now)) ≤ most_statements }
    ensures made { IfOk result (λ n. ((pool.new, last.new, flats blocks.new.items), n)
        ≡ laid_block (pool.old, last.old, flats blocks.old.items) (stmts_of (stmts body.now))) }
    ensures counted { IfOk result (λ n. last.new ≡ last.old + count_all (stmts_of (stmts body.now))) }
{
    let statements = statements(alloc, pool, last, blocks, body)?;
    blocks.push(Block { statements })?;
    Ok(blocks.len())
}
