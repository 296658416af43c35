//! Makes the code of a program: each name becomes the number of what it means.
ghost use Rattle.std.specs.Prelude.{◌≡◌, ℕ, map, string_bytes, is_some, IfOk, IfSome, Ok};
ghost use Rattle.meaning.specs.Tree.{Body};
ghost use Rattle.meaning.specs.TreeView.{term, deed, statements as body_of, decl, proc};
ghost use Rattle.meaning.specs.Statements.{reducers, procedure_of};
ghost use Rattle.meaning.specs.Tables.{index_of as index_in, is_there};
ghost use Rattle.linked_program.specs.TableNames.{columned};
ghost use Rattle.linked_program.specs.Procedures.{procedures};
ghost use Rattle.linked_program.specs.Linked.{procedure_number as number_of_procedure, reducer_number as number_of_reducer};
ghost use Rattle.linked_program.specs.Linked.{table_number as number_of_table, column_number as number_of_column, linked_term, linked_deed};
ghost use Rattle.linked_program.specs.Linked.{linked_body, Acts, loops, kinds_of, constant, slot as slot_of, cell_at, joined as joined_by};
ghost use Rattle.linked_program.specs.CodeView.{expression as plain, act, acts, IsCodeOf, AreBlocksOf, AreCodesOf, AreShort, AreShortBlocks, HasShort};

use crate::code::{Code, CodeBlock, Expression, Instruction, NO_HINTS, Operation, RowCells};
use crate::hints::give_hints;
use crate::shortening::short_form;
use crate::tables::TableNames;
use meaning::tree::{Action, Block, Declaration, Expr, Operator, Procedure, Statement};
use monoid_laws::Kind;
use std::alloc::{AllocError, Global};

/// The number of the first procedure of a name among declarations' procedures; how many there are where there is no such procedure.
pub fn procedure_number(declarations: &[Declaration], name: &str) -> usize
    ensures { result ≡ number_of_procedure (procedures (map decl declarations.now)) name.now }
{
    let mut number = 0;
    for declaration in declarations {
        if let Declaration::Procedure(procedure) = declaration {
            if procedure.name.as_str() == name {
                return number;
            }
            number += 1;
        }
    }
    number
}

/// The number of the first procedure of a name among declarations' procedures; none where there is no such procedure.
pub fn procedure_place(declarations: &[Declaration], name: &str) -> Option<usize>
    ensures number { IfSome result (λ n. n ≡ number_of_procedure (procedures (map decl declarations.now)) name.now) }
    ensures known { is_some result ≡ is_there (procedure_of (map decl declarations.now) name.now) }
{
    let mut number = 0;
    for declaration in declarations {
        if let Declaration::Procedure(procedure) = declaration {
            if procedure.name.as_str() == name {
                return Some(number);
            }
            number += 1;
        }
    }
    None
}

fn reducer_number(declarations: &[Declaration], name: &str) -> usize
    ensures { result ≡ number_of_reducer (reducers (map decl declarations.now)) name.now }
{
    let mut number = 0;
    for declaration in declarations {
        if let Declaration::Reducer(reducer) = declaration {
            if reducer.name.as_str() == name {
                return number;
            }
            number += 1;
        }
    }
    number
}

fn table_number(tables: &[TableNames], name: &str) -> usize
    ensures { result ≡ number_of_table (map columned tables.now) name.now }
{
    let mut number = 0;
    for table in tables {
        if table.name.as_str() == name {
            return number;
        }
        number += 1;
    }
    number
}

// The index of a name among these, or their number where it is not there.
fn index_of(names: &[String], name: &str) -> usize
    ensures { result ≡ index_in (map string_bytes names.now) name.now }
{
    let mut number = 0;
    for other in names {
        if other.as_str() == name {
            return number;
        }
        number += 1;
    }
    number
}

fn column_number(tables: &[TableNames], table: &str, column: &str) -> usize
    ensures { result ≡ number_of_column (map columned tables.now) table.now column.now }
{
    for other in tables {
        if other.name.as_str() == table {
            return index_of(&other.columns, column);
        }
    }
    0
}

// An expression that was made, in a box.
fn boxed(alloc: Global, made: Result<Expression, AllocError>) -> Result<Box<Expression>, AllocError>
    ensures { IfOk result (λ place. made ≡ Ok place.value) }
{
    Ok(Box::new(alloc, made?)?)
}

// The slot that an expression is.
fn slot_in(expression: &Expression) -> Option<usize>
    ensures { IfSome result (λ x. plain expression.now ≡ slot_of x) }
{
    match expression {
        Expression::Slot(number) => Some(*number),
        _ => None,
    }
}

// A cell, without a box where its row stands in a slot.
fn cell(
    alloc: Global,
    table: usize,
    row: Expression,
    column: usize,
) -> Result<Expression, AllocError>
    ensures { IfOk result (λ made. plain made ≡ cell_at table (plain row) column) }
{
    match slot_in(&row) {
        Some(slot) => Ok(Expression::SlotCell(table, slot, column)),
        None => Ok(Expression::Cell(table, Box::new(alloc, row)?, column)),
    }
}

// An operator on a slot and what stands to its right, without boxes.
fn beside_slot(operator: Operator, left: usize, right: &Expression) -> Option<Expression>
    ensures { IfSome result (λ made. plain made ≡ joined_by operator (slot_of left) (plain right.now)) }
{
    match right {
        Expression::Slot(right) => Some(Expression::Slots(operator, left, *right)),
        Expression::Number(right) => Some(Expression::SlotAndNumber(operator, left, *right)),
        _ => None,
    }
}

// An operator on a number and what stands to its right, without boxes.
fn beside_number(operator: Operator, left: i64, right: &Expression) -> Option<Expression>
    ensures { IfSome result (λ made. plain made ≡ joined_by operator (constant left) (plain right.now)) }
{
    match right {
        Expression::Slot(right) => Some(Expression::NumberAndSlot(operator, left, *right)),
        _ => None,
    }
}

// An operator on a cell whose row stands in a slot and what stands to its right, without boxes.
fn beside_cell(
    operator: Operator,
    table: usize,
    slot: usize,
    first: usize,
    right: &Expression,
) -> Option<Expression>
    ensures { IfSome result (λ made. plain made ≡ joined_by operator (cell_at table (slot_of slot) first) (plain right.now)) }
{
    match right {
        Expression::SlotCell(other_table, other_slot, second) => {
            if *other_table != table {
                return None;
            }
            if *other_slot != slot {
                return None;
            }
            let cells = RowCells {
                table,
                slot,
                first,
                second: *second,
            };
            Some(Expression::OnRow(operator, cells))
        }
        _ => None,
    }
}

// An operator on two expressions in a form without boxes, where there is one.
fn unboxed(operator: Operator, left: &Expression, right: &Expression) -> Option<Expression>
    ensures { IfSome result (λ made. plain made ≡ joined_by operator (plain left.now) (plain right.now)) }
{
    match left {
        Expression::Slot(slot) => beside_slot(operator, *slot, right),
        Expression::Number(number) => beside_number(operator, *number, right),
        Expression::SlotCell(table, slot, column) => {
            beside_cell(operator, *table, *slot, *column, right)
        }
        _ => None,
    }
}

// An operator on two expressions.
fn joined(
    alloc: Global,
    operator: Operator,
    left: Expression,
    right: Expression,
) -> Result<Expression, AllocError>
    ensures { IfOk result (λ made. plain made ≡ joined_by operator (plain left) (plain right)) }
{
    match unboxed(operator, &left, &right) {
        Some(made) => Ok(made),
        None => {
            let left = Box::new(alloc, left)?;
            let right = Box::new(alloc, right)?;
            Ok(Expression::Binary(operator, left, right))
        }
    }
}

// The code of an expression: variables stay slots, tables and columns become numbers.
fn expression(alloc: Global, tables: &[TableNames], expr: &Expr) -> Result<Expression, AllocError>
    ensures { IfOk result (λ made. plain made ≡ linked_term (map columned tables.now) (term expr.now)) }
{
    match expr {
        Expr::Number(number) => Ok(Expression::Number(*number)),
        Expr::Name(name) => Ok(Expression::Slot(*name)),
        Expr::Cell(table, row, column) => {
            let row = expression(alloc, tables, row)?;
            let number = column_number(tables, table.as_str(), column.as_str());
            cell(alloc, table_number(tables, table.as_str()), row, number)
        }
        Expr::Has(table, row) => {
            let row = boxed(alloc, expression(alloc, tables, row))?;
            Ok(Expression::Has(table_number(tables, table.as_str()), row))
        }
        Expr::Limit(table) => Ok(Expression::Limit(table_number(tables, table.as_str()))),
        Expr::Sum(table, column) => {
            let number = column_number(tables, table.as_str(), column.as_str());
            Ok(Expression::Sum(table_number(tables, table.as_str()), number))
        }
        Expr::Negate(inner) => {
            let inner = boxed(alloc, expression(alloc, tables, inner))?;
            Ok(Expression::Negate(inner))
        }
        Expr::Binary(op, left, right) => {
            let left = expression(alloc, tables, left)?;
            let right = expression(alloc, tables, right)?;
            joined(alloc, *op, left, right)
        }
    }
}

fn expressions(
    alloc: Global,
    tables: &[TableNames],
    exprs: &[Expr],
) -> Result<Vec<Expression>, AllocError>
    ensures { IfOk result (λ made. map plain made.items ≡ map (linked_term (map columned tables.now)) (map term exprs.now)) }
{
    let mut made = Vec::new(alloc);
    made.reserve(exprs.len())?;
    for expr in exprs {
        made.push(expression(alloc, tables, expr)?)?;
    }
    Ok(made)
}

// The numbers that a loop counts: those between two values, of which so many go into a strand.
#[derive(Clone, Copy)]
struct Counted<'a> {
    low: &'a Expr,
    high: &'a Expr,
    grain: u32,
}

// A loop that spawns the procedure of this number.
fn repetition(
    alloc: Global,
    tables: &[TableNames],
    name: usize,
    counted: Counted<'_>,
    procedure: usize,
    arguments: &[Expr],
) -> Result<Operation, AllocError>
    ensures { IfOk result (λ made. (inner : ℕ → Acts)
        → act inner made ≡ loops name (linked_term (map columned tables.now) (term counted.entry.low.now))
        (linked_term (map columned tables.now) (term counted.entry.high.now)) counted.entry.grain procedure
        (map (linked_term (map columned tables.now)) (map term arguments.now))) }
{
    let low = expression(alloc, tables, counted.low)?;
    let high = expression(alloc, tables, counted.high)?;
    let arguments = expressions(alloc, tables, arguments)?;
    Ok(Operation::Loop(name, low, high, counted.grain, procedure, arguments))
}

// What a statement does, where its blocks keep their numbers.
fn operation(
    alloc: Global,
    declarations: &[Declaration],
    tables: &[TableNames],
    action: &Action,
) -> Result<Operation, AllocError>
    ensures { IfOk result (λ made. (inner : ℕ → Body)
        → act (λ n. linked_body (map columned tables.now) (map decl declarations.now) (inner n)) made
        ≡ linked_deed (map columned tables.now) (map decl declarations.now) (deed inner action.now)) }
{
    match action {
        Action::Bind(name, value) => Ok(Operation::Bind(*name, expression(alloc, tables, value)?)),
        Action::Enter(name, way, callee, arguments) => {
            let procedure = procedure_number(declarations, callee.as_str());
            let arguments = expressions(alloc, tables, arguments)?;
            Ok(Operation::Enter(*name, *way, procedure, arguments))
        }
        Action::Read(name, reducer) => {
            let number = reducer_number(declarations, reducer.as_str());
            Ok(Operation::Read(*name, number))
        }
        Action::Sync => Ok(Operation::Sync),
        Action::Update(reducer, values) => {
            let number = reducer_number(declarations, reducer.as_str());
            Ok(Operation::Update(number, expressions(alloc, tables, values)?))
        }
        Action::If(condition, first, second) => {
            let condition = expression(alloc, tables, condition)?;
            Ok(Operation::If(condition, *first, *second))
        }
        Action::Loop(name, low, high, grain, callee, arguments) => {
            let number = procedure_number(declarations, callee.as_str());
            let counted = Counted {
                low,
                high,
                grain: *grain,
            };
            repetition(alloc, tables, *name, counted, number, arguments)
        }
        Action::Return(value) => Ok(Operation::Return(expression(alloc, tables, value)?)),
    }
}

// The statements of a block, over reducers of these kinds.
fn instructions(
    alloc: Global,
    declarations: &[Declaration],
    tables: &[TableNames],
    kinds: &[Kind],
    statements: &[Statement],
) -> Result<Vec<Instruction>, AllocError>
    ensures acts { IfOk result (λ made. (inner : ℕ → Body)
        → acts (λ n. linked_body (map columned tables.now) (map decl declarations.now) (inner n)) made.items
        ≡ linked_body (map columned tables.now) (map decl declarations.now) (body_of inner statements.now)) }
    ensures short { IfOk result (λ made. AreShort kinds.now made.items) }
{
    let mut made = Vec::new(alloc);
    made.reserve(statements.len())?;
    for statement in statements {
        let operation = operation(alloc, declarations, tables, &statement.action)?;
        made.push(instruction(alloc, kinds, statement.number, operation)?)?;
    }
    Ok(made)
}

// The statement of that number, over reducers of these kinds.
fn instruction(
    alloc: Global,
    kinds: &[Kind],
    number: u32,
    operation: Operation,
) -> Result<Instruction, AllocError>
    ensures number { IfOk result (λ made. made.number ≡ number) }
    ensures operation { IfOk result (λ made. made.operation ≡ operation) }
    ensures short { IfOk result (λ made. HasShort kinds.now made) }
{
    match short_form(alloc, kinds, &operation) {
        Ok(short) => Ok(Instruction {
            number,
            short,
            operation,
        }),
        Err(error) => Err(error),
    }
}

fn code_blocks(
    alloc: Global,
    declarations: &[Declaration],
    tables: &[TableNames],
    kinds: &[Kind],
    blocks: &[Block],
) -> Result<Vec<CodeBlock>, AllocError>
    ensures blocks { IfOk result (λ made. AreBlocksOf (map columned tables.now) (map decl declarations.now) made.items blocks.now) }
    ensures short { IfOk result (λ made. AreShortBlocks kinds.now made.items) }
{
    let mut made = Vec::new(alloc);
    made.reserve(blocks.len())?;
    for block in blocks {
        let instructions = instructions(alloc, declarations, tables, kinds, &block.statements)?;
        made.push(CodeBlock { instructions })?;
    }
    Ok(made)
}

fn code(
    alloc: Global,
    declarations: &[Declaration],
    tables: &[TableNames],
    kinds: &[Kind],
    procedure: &Procedure,
) -> Result<Code, AllocError>
    requires kinds { kinds.now ≡ kinds_of (map decl declarations.now) }
    ensures { IfOk result (λ made. IsCodeOf (map columned tables.now) (map decl declarations.now) made (proc procedure.now)) }
{
    let slots = procedure.names.len();
    let blocks = code_blocks(alloc, declarations, tables, kinds, &procedure.blocks)?;
    Ok(Code {
        memo: procedure.memo,
        slots,
        blocks,
        hints: NO_HINTS,
    })
}

/// The codes of a program's procedures, in their order, over tables of these names. Want of memory is the only error.
pub fn codes(
    alloc: Global,
    declarations: &[Declaration],
    tables: &[TableNames],
) -> Result<Vec<Code>, AllocError>
    ensures codes { IfOk result (λ made. AreCodesOf (map columned tables.now)
        (map decl declarations.now) made.items (procedures (map decl declarations.now))) }
{
    let kinds = kinds(alloc, declarations)?;
    let mut made = codes_over(alloc, declarations, tables, &kinds)?;
    give_hints(alloc, &mut made)?;
    Ok(made)
}

// The same without hints, where the reducers have these kinds.
fn codes_over(
    alloc: Global,
    declarations: &[Declaration],
    tables: &[TableNames],
    kinds: &[Kind],
) -> Result<Vec<Code>, AllocError>
    requires kinds { kinds.now ≡ kinds_of (map decl declarations.now) }
    ensures codes { IfOk result (λ made. AreCodesOf (map columned tables.now)
        (map decl declarations.now) made.items (procedures (map decl declarations.now))) }
{
    let mut made = Vec::new(alloc);
    for declaration in declarations {
        if let Declaration::Procedure(procedure) = declaration {
            made.push(code(alloc, declarations, tables, kinds, procedure)?)?;
        }
    }
    Ok(made)
}

/// The kinds of a program's reducers, in their order. Want of memory is the only error.
pub fn kinds(alloc: Global, declarations: &[Declaration]) -> Result<Vec<Kind>, AllocError>
    ensures kinds { IfOk result (λ made. made.items ≡ kinds_of (map decl declarations.now)) }
{
    let mut made = Vec::new(alloc);
    for declaration in declarations {
        if let Declaration::Reducer(reducer) = declaration {
            made.push(reducer.kind)?;
        }
    }
    Ok(made)
}
