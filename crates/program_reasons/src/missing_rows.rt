// The serial run of a program's code, as far as the first row that isn't there.

ghost use Rattle.std.specs.Prelude.{◌≡◌, IfErr, IfSome, option_copied, slice_get};
ghost use Rattle.linked_program.specs.CodeView.{blocks_in};
ghost use Rattle.program_reasons.specs.Absent.{EndsAbsent, IsAbsent, put_at};

use crate::missing_cells::{Halt, Missed};
use crate::missing_values::{Asked, Ground, ask_all, put, range_of, slots_of, value_of};
use evaluation::ranges::LoopRange;
use evaluation::slot::Slot;
use input_tables::Tables;
use linked_program::checked::Checked;
use linked_program::code::{CodeBlock, Expression, Operation};
use meaning::DEPTH_LIMIT;
use std::alloc::Global;

// How many calls of this file are nested in an instance at most: two a block, of which 32 are nested, and one for a loop.
const LEVELS: u32 = 99;

// Iterations of a loop: the numbers that its variable's slot has in them, and what each of them enters.
#[derive(Clone, Copy)]
struct Iterations<'a> {
    range: LoopRange,
    variable: usize,
    callee: usize,
    arguments: &'a [Expression],
}

/// The first row that a program's run on these tables, done serially and from scratch, reads and that isn't there. None where the run
/// ends otherwise, reads a reducer before, or asks for too many values.
pub(crate) fn first_missing(alloc: Global, checked: &Checked, tables: &Tables) -> Option<Missed>
    ensures absent { IfSome result (IsAbsent tables.now.tables) }
{
    let ground = Ground {
        alloc,
        checked,
        tables,
    };
    let mut asked = Asked::new(alloc);
    match entered(ground, DEPTH_LIMIT, checked.main(), &[], &[], &mut asked) {
        Err(Halt::Missed(missed)) => Some(missed),
        _ => None,
    }
}

// The value of an instance that is entered with these arguments, where so many more may be nested.
#[cycle(walk)]
fn entered(
    ground: Ground<'_>,
    depth: u32,
    procedure: usize,
    arguments: &[Expression],
    slots: &[Slot],
    asked: &mut Asked,
) -> Result<i64, Halt>
    ensures absent { IfErr result (EndsAbsent ground.entry.tables.now.tables) }
{
    if depth == 0 {
        return Err(Halt::Unknown);
    }
    let mut own = slots_of(ground, procedure, arguments, slots, asked)?;
    match done(ground, depth - 1, LEVELS, procedure, 0, &mut own, asked) {
        Ok(Some(value)) => Ok(value),
        Ok(None) => Ok(0),
        Err(halt) => Err(halt),
    }
}

// What the block of that number gives back, if it returns.
#[cycle(walk)]
fn done(
    ground: Ground<'_>,
    depth: u32,
    levels: u32,
    procedure: usize,
    number: usize,
    slots: &mut Vec<Slot>,
    asked: &mut Asked,
) -> Result<Option<i64>, Halt>
    ensures absent { IfErr result (EndsAbsent ground.entry.tables.now.tables) }
{
    let Some(block) = block_of(ground.checked, procedure, number) else {
        return Ok(None);
    };
    if levels == 0 {
        return Err(Halt::Unknown);
    }
    for instruction in &block.instructions {
        match step(
            ground,
            depth,
            levels - 1,
            procedure,
            &instruction.operation,
            slots,
            asked,
        ) {
            Ok(None) => {}
            Ok(Some(value)) => return Ok(Some(value)),
            Err(halt) => return Err(halt),
        }
    }
    Ok(None)
}

// The block of that number of a procedure.
fn block_of(checked: &Checked, procedure: usize, number: usize) -> Option<&CodeBlock>
    ensures block { option_copied result ≡ slice_get (blocks_in (slice_get checked.now.codes procedure)) number }
{
    match checked.codes().get(procedure) {
        Some(code) => code.blocks.get(number),
        None => None,
    }
}

// Does a statement; what it gives back, if it returns.
#[cycle(walk)]
fn step(
    ground: Ground<'_>,
    depth: u32,
    levels: u32,
    procedure: usize,
    operation: &Operation,
    slots: &mut Vec<Slot>,
    asked: &mut Asked,
) -> Result<Option<i64>, Halt>
    ensures absent { IfErr result (EndsAbsent ground.entry.tables.now.tables) }
{
    if levels == 0 {
        return Err(Halt::Unknown);
    }
    match operation {
        Operation::Bind(x, value) => {
            let value = value_of(ground, value, slots, asked)?;
            put(slots, *x, value);
        }
        Operation::Enter(x, _, callee, arguments) => {
            let value = entered(ground, depth, *callee, arguments, slots, asked)?;
            put_into(slots, *x, value);
        }
        Operation::Read(..) => return Err(Halt::Unknown),
        Operation::Sync => {}
        Operation::Update(_, numbers) => ask_all(ground, numbers, slots, asked)?,
        Operation::If(condition, first, second) => {
            let value = value_of(ground, condition, slots, asked)?;
            let number = if value == 0 { *second } else { *first };
            return done(ground, depth, levels - 1, procedure, number, slots, asked);
        }
        Operation::Loop(x, low, high, _, callee, arguments) => {
            let range = range_of(ground, low, high, slots, asked)?;
            let iterations = Iterations {
                range,
                variable: *x,
                callee: *callee,
                arguments: arguments.as_slice(),
            };
            turns(ground, depth, levels - 1, iterations, slots, asked)?;
        }
        Operation::Return(value) => return returned(ground, value, slots, asked),
    }
    Ok(None)
}

// What a statement that returns that value gives back.
fn returned(
    ground: Ground<'_>,
    value: &Expression,
    slots: &[Slot],
    asked: &mut Asked,
) -> Result<Option<i64>, Halt>
    ensures absent { IfErr result (EndsAbsent ground.entry.tables.now.tables) }
{
    match value_of(ground, value, slots, asked) {
        Ok(value) => Ok(Some(value)),
        Err(halt) => Err(halt),
    }
}

// Gives a slot its value, if there is one that takes it.
fn put_into(slots: &mut Vec<Slot>, number: Option<usize>, value: i64)
    ensures put { slots.new.items ≡ put_at number value slots.old.items }
{
    if let Some(number) = number {
        put(slots, number, value);
    }
}

// Does the iterations of a loop.
#[cycle(walk)]
fn turns(
    ground: Ground<'_>,
    depth: u32,
    levels: u32,
    iterations: Iterations<'_>,
    slots: &mut Vec<Slot>,
    asked: &mut Asked,
) -> Result<(), Halt>
    ensures absent { IfErr result (EndsAbsent ground.entry.tables.now.tables) }
{
    if levels == 0 {
        return Err(Halt::Unknown);
    }
    let Iterations {
        range,
        variable,
        callee,
        arguments,
    } = iterations;
    for turn in 0..range.count {
        put(slots, variable, range.low.wrapping_add(i64::from(turn)));
        if let Err(halt) = entered(ground, depth, callee, arguments, slots, asked) {
            return Err(halt);
        }
    }
    Ok(())
}
