// The serial run of a program's code, but for the instances that records answer.

ghost use Rattle.std.specs.Prelude.{◌≡◌, None, IfNone};
ghost use Rattle.record_theory.specs.Validity.{valid_at};
ghost use Rattle.rerun_reasons.specs.Unanswered.{AreUnanswered};

use crate::reason::Ending;
use crate::replay::Found;
use crate::setting::Setting;
use crate::values::{Halt, ask, ask_update, put, range_of, slots_of, value_of};
use evaluation::ranges::LoopRange;
use evaluation::slot::Slot;
use input_tables::Tables;
use linked_program::checked::Checked;
use linked_program::code::{CodeBlock, Expression, Operation};
use meaning::DEPTH_LIMIT;
use std::alloc::AllocError;

// How many calls of this file are nested in an instance at most: two a block, of which 32 are nested, and one for a loop.
const LEVELS: u32 = 99;

// Iterations of a loop: the numbers that its variable's slot has in them, and what each of them enters.
#[derive(Clone, Copy)]
struct Iterations<'a> {
    range: LoopRange,
    variable: usize,
    callee: usize,
    arguments: &'a [Expression],
}

/// Runs the program, and finds what its memo instances come to, as far as to its first fault. What is read of reducers isn't known
/// here, but no instance is entered behind that. Want of memory is the only error.
pub(crate) fn replay(setting: Setting<'_>, found: &mut Found) -> Result<Ending, AllocError>
    ensures unanswered { AreUnanswered setting.entry found.old.first.items
        → AreUnanswered setting.entry found.new.first.items }
{
    let main = setting.checked.main();
    match entered(setting, DEPTH_LIMIT, main, &[], &[], found) {
        Ok(_) | Err(Halt::Read) => Ok(Ending::Whole),
        Err(Halt::Fault) => Ok(Ending::Fault),
        Err(Halt::NoMemory) => Err(AllocError),
    }
}

// The value of an instance that is entered with these arguments, where so many more may be nested, itself counted.
#[cycle(walk)]
fn entered(
    setting: Setting<'_>,
    left: u32,
    procedure: usize,
    arguments: &[Expression],
    slots: &[Slot],
    found: &mut Found,
) -> Result<i64, Halt>
    ensures unanswered { AreUnanswered setting.entry found.old.first.items
        → AreUnanswered setting.entry found.new.first.items }
{
    ask(setting.tables, arguments, slots, found)?;
    if left == 0 {
        return Err(Halt::Fault);
    }
    if setting.checked.is_memo(procedure) {
        recalled(setting, left - 1, procedure, found)
    } else {
        executed(setting, left - 1, procedure, found)
    }
}

// The value of an instance of a memo procedure, whose arguments were asked for last: by a record, or else it is executed.
#[cycle(walk)]
fn recalled(
    setting: Setting<'_>,
    left: u32,
    procedure: usize,
    found: &mut Found,
) -> Result<i64, Halt>
    ensures unanswered { AreUnanswered setting.entry found.old.first.items
        → AreUnanswered setting.entry found.new.first.items }
{
    let depth = DEPTH_LIMIT.saturating_sub(left);
    if let Some(value) = answer(setting, procedure, &found.numbers, depth) {
        found.reuse(procedure);
        return Ok(value);
    }
    if found.execute(setting, procedure, depth).is_err() {
        return Err(Halt::NoMemory);
    }
    match executed(setting, left, procedure, found) {
        Ok(value) => {
            found.leave();
            Ok(value)
        }
        Err(halt) => Err(halt),
    }
}

// The value that a record has for an instance at that depth.
fn answer(setting: Setting<'_>, procedure: usize, arguments: &[i64], depth: u32) -> Option<i64>
    ensures none { IfNone result (valid_at setting.entry.checked.now.revisions
        setting.entry.tables.now.tables depth setting.entry.records.now procedure arguments.now
        ≡ None) }
{
    let found = setting.records.valid(procedure, arguments, depth, setting.tables, setting.checked);
    match found {
        Some(record) => Some(record.value()),
        None => None,
    }
}

// The value of an instance that is executed, whose arguments were asked for last.
#[cycle(walk)]
fn executed(
    setting: Setting<'_>,
    left: u32,
    procedure: usize,
    found: &mut Found,
) -> Result<i64, Halt>
    ensures unanswered { AreUnanswered setting.entry found.old.first.items
        → AreUnanswered setting.entry found.new.first.items }
{
    let size = setting.checked.slots(procedure);
    let Ok(mut slots) = slots_of(setting.alloc, size, &found.numbers) else {
        return Err(Halt::NoMemory);
    };
    match done(setting, left, LEVELS, procedure, 0, &mut slots, found) {
        Ok(Some(value)) => Ok(value),
        Ok(None) => Ok(0),
        Err(halt) => Err(halt),
    }
}

// What the block of that number gives back, if it returns. In a checked program no more blocks are nested than there are levels.
#[cycle(walk)]
fn done(
    setting: Setting<'_>,
    left: u32,
    levels: u32,
    procedure: usize,
    number: usize,
    slots: &mut Vec<Slot>,
    found: &mut Found,
) -> Result<Option<i64>, Halt>
    ensures unanswered { AreUnanswered setting.entry found.old.first.items
        → AreUnanswered setting.entry found.new.first.items }
{
    let Some(block) = block_of(setting.checked, procedure, number) else {
        return Ok(None);
    };
    if levels == 0 {
        return Err(Halt::Fault);
    }
    for instruction in &block.instructions {
        let operation = &instruction.operation;
        match step(
            setting,
            left,
            levels - 1,
            procedure,
            operation,
            slots,
            found,
        ) {
            Ok(None) => {}
            Ok(Some(value)) => return Ok(Some(value)),
            Err(halt) => return Err(halt),
        }
    }
    Ok(None)
}

// The block of that number of a procedure.
fn block_of(checked: &Checked, procedure: usize, number: usize) -> Option<&CodeBlock> {
    match checked.codes().get(procedure) {
        Some(code) => code.blocks.get(number),
        None => None,
    }
}

// Does a statement; what it gives back, if it returns.
#[cycle(walk)]
fn step(
    setting: Setting<'_>,
    left: u32,
    levels: u32,
    procedure: usize,
    operation: &Operation,
    slots: &mut Vec<Slot>,
    found: &mut Found,
) -> Result<Option<i64>, Halt>
    ensures unanswered { AreUnanswered setting.entry found.old.first.items
        → AreUnanswered setting.entry found.new.first.items }
{
    if levels == 0 {
        return Err(Halt::Fault);
    }
    match operation {
        Operation::Bind(x, value) => {
            let value = value_of(setting.tables, value, slots)?;
            put(slots, *x, value);
        }
        Operation::Enter(x, _, callee, arguments) => {
            let value = entered(setting, left, *callee, arguments, slots, found)?;
            put_into(slots, *x, value);
        }
        Operation::Read(..) => return Err(Halt::Read),
        Operation::Sync => {}
        Operation::Update(reducer, numbers) => {
            ask_update(setting, *reducer, numbers, slots, found)?;
        }
        Operation::If(condition, first, second) => {
            let value = value_of(setting.tables, condition, slots)?;
            let number = if value == 0 { *second } else { *first };
            return done(setting, left, levels - 1, procedure, number, slots, found);
        }
        Operation::Loop(x, low, high, _, callee, arguments) => {
            let range = range_of(setting.tables, low, high, slots, found)?;
            let iterations = Iterations {
                range,
                variable: *x,
                callee: *callee,
                arguments: arguments.as_slice(),
            };
            turns(setting, left, iterations, slots, found)?;
        }
        Operation::Return(value) => return returned(setting.tables, value, slots),
    }
    Ok(None)
}

// What a statement that returns that value gives back.
fn returned(tables: &Tables, value: &Expression, slots: &[Slot]) -> Result<Option<i64>, Halt> {
    match value_of(tables, value, slots) {
        Ok(value) => Ok(Some(value)),
        Err(halt) => Err(halt),
    }
}

// Gives a slot its value, if there is one that takes it.
fn put_into(slots: &mut Vec<Slot>, number: Option<usize>, value: i64) {
    if let Some(number) = number {
        put(slots, number, value);
    }
}

// Does the iterations of a loop.
#[cycle(walk)]
fn turns(
    setting: Setting<'_>,
    left: u32,
    iterations: Iterations<'_>,
    slots: &mut Vec<Slot>,
    found: &mut Found,
) -> Result<(), Halt>
    ensures unanswered { AreUnanswered setting.entry found.old.first.items
        → AreUnanswered setting.entry found.new.first.items }
{
    let Iterations {
        range,
        variable,
        callee,
        arguments,
    } = iterations;
    for turn in 0..range.count {
        put(slots, variable, range.low.wrapping_add(i64::from(turn)));
        if let Err(halt) = entered(setting, left, callee, arguments, slots, found) {
            return Err(halt);
        }
    }
    Ok(())
}
