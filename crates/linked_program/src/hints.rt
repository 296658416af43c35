//! What may be tried with the instances of a procedure, found by a look at its statements and at those of the procedures that it calls,
//! once all codes are made. Nothing is claimed of it: who heeds a hint and who doesn't come to the same.
ghost use Rattle.std.specs.Prelude.{◌≡◌, map};
ghost use Rattle.linked_program.specs.Bare.{bare};

use crate::code::{Code, CodeBlock, Expression, Hints, Instruction, NO_HINTS, Operation};
use meaning::tree::Way;
use std::alloc::{AllocError, Global};

// So many levels of calls are below a procedure at most whose instances are said to do all by themselves: so many can stand beside the strand.
const LEVELS: u32 = 7;

// What stands for more.
const NEVER: u32 = u32::MAX;

// An instance whose value is found by recursion has so many slots at most.
const WIDEST: usize = 8;

// Calls are followed so many levels deep, as many as there are procedures.
const FOLLOWED: u32 = 256;

/// Gives each procedure's code its hints, in time proportional to the codes. Want of memory is the only error.
pub(crate) fn give_hints(alloc: Global, codes: &mut Vec<Code>) -> Result<(), AllocError>
    ensures same { map bare codes.new.items ≡ map bare codes.old.items }
{
    let mut seen = Vec::new(alloc);
    seen.resize(codes.len(), None)?;
    let mut found = Vec::new(alloc);
    found.resize(codes.len(), None)?;
    note_own(codes.as_slice(), &mut found);
    for number in 0..codes.len() {
        let hints = hints(codes.as_slice(), &mut seen, &mut found, number);
        set_hints(codes, number, hints);
    }
    Ok(())
}

/// Notes that no levels are below the procedures whose instances aren't recorded and whose values may be found by recursion.
fn note_own(codes: &[Code], found: &mut Vec<Option<u32>>) {
    for number in 0..codes.len() {
        let code = &codes[number];
        if !code.memo && code.slots <= WIDEST && calls_itself(number, &code.blocks) {
            note(found, number, 0);
        }
    }
}

/// The code of the procedure of that number gets these hints.
fn set_hints(codes: &mut Vec<Code>, number: usize, hints: Hints)
    ensures same { map bare codes.new.items ≡ map bare codes.old.items }
{
    if number < codes.len() {
        codes[number].hints = hints;
    }
}

/// The hints of the procedure of that number, where the levels below some procedures were noted: as they are, and as they count where values
/// are found by recursion.
fn hints(
    codes: &[Code],
    seen: &mut Vec<Option<u32>>,
    found: &mut Vec<Option<u32>>,
    number: usize,
) -> Hints {
    match codes.get(number) {
        Some(code) => {
            let alone = levels_of(codes, seen, number, FOLLOWED) <= LEVELS;
            Hints {
                beside: stay_beside(&code.blocks),
                own: calls_itself(number, &code.blocks),
                alone,
                found: alone || levels_of(codes, found, number, FOLLOWED) <= LEVELS,
                back: goes_back(codes, seen, &code.blocks),
            }
        }
        None => NO_HINTS,
    }
}

/// Whether no statement spawns an instance, loops or reads a reducer.
fn stay_beside(blocks: &[CodeBlock]) -> bool {
    for block in blocks {
        for instruction in &block.instructions {
            if !stays_beside(&instruction.operation) {
                return false;
            }
        }
    }
    true
}

fn stays_beside(operation: &Operation) -> bool {
    match operation {
        Operation::Enter(_, way, _, _) => is_call(*way),
        Operation::Loop(_, _, _, _, _, _) => false,
        Operation::Read(_, _) => false,
        _ => true,
    }
}

fn is_call(way: Way) -> bool {
    match way {
        Way::Call => true,
        Way::Spawn => false,
    }
}

/// Whether each statement calls no other procedure, and reads nothing.
fn calls_itself(procedure: usize, blocks: &[CodeBlock]) -> bool {
    match blocks.first() {
        Some(body) => is_own_body(&body.instructions, procedure) && are_short(blocks),
        None => false,
    }
}

fn is_own_body(instructions: &[Instruction], procedure: usize) -> bool {
    for instruction in instructions {
        if !is_own(&instruction.operation, procedure) {
            return false;
        }
    }
    true
}

/// Whether there is nothing in each block but the first, or it begins with a return.
fn are_short(blocks: &[CodeBlock]) -> bool {
    for place in 1..blocks.len() {
        match blocks[place].instructions.first() {
            None => {}
            Some(first) => match &first.operation {
                Operation::Return(_) => {}
                _ => return false,
            },
        }
    }
    true
}

fn is_own(operation: &Operation, procedure: usize) -> bool {
    match operation {
        Operation::Bind(_, value) => is_silent(value),
        Operation::Enter(_, way, callee, arguments) => {
            is_call(*way) && *callee == procedure && are_silent(arguments)
        }
        Operation::Sync => true,
        Operation::If(condition, _, _) => is_silent(condition),
        Operation::Return(value) => is_silent(value),
        _ => false,
    }
}

fn are_silent(expressions: &[Expression]) -> bool {
    for expression in expressions {
        if !is_silent(expression) {
            return false;
        }
    }
    true
}

/// Whether an expression reads nothing.
#[cycle(is_silent)]
fn is_silent(expression: &Expression) -> bool {
    match expression {
        Expression::Number(_) => true,
        Expression::Slot(_) => true,
        Expression::Slots(_, _, _) => true,
        Expression::SlotAndNumber(_, _, _) => true,
        Expression::NumberAndSlot(_, _, _) => true,
        Expression::Negate(inner) => is_silent(inner),
        Expression::Binary(_, left, right) => is_silent(left) && is_silent(right),
        _ => false,
    }
}

/// Whether each statement of a body is done by the instance itself, or calls one that does all by itself.
fn goes_back(codes: &[Code], seen: &mut Vec<Option<u32>>, blocks: &[CodeBlock]) -> bool {
    match blocks.first() {
        Some(body) => is_body_back(codes, seen, &body.instructions),
        None => true,
    }
}

fn is_body_back(codes: &[Code], seen: &mut Vec<Option<u32>>, body: &[Instruction]) -> bool {
    for instruction in body {
        let back = match &instruction.operation {
            Operation::Enter(_, way, callee, _) => {
                levels_called(codes, seen, *way, *callee, FOLLOWED) <= LEVELS
            }
            Operation::Loop(_, _, _, _, _, _) => false,
            Operation::Read(_, _) => false,
            _ => true,
        };
        if !back {
            return false;
        }
    }
    true
}

/// How many levels of calls are below the instances of that procedure, where they do all by themselves. It is found once, and noted; so
/// many levels more are followed. One that comes back to itself doesn't.
#[cycle(looking)]
fn levels_of(codes: &[Code], seen: &mut Vec<Option<u32>>, procedure: usize, left: u32) -> u32 {
    if let Some(levels) = known(seen.as_slice(), procedure) {
        return levels;
    }
    note(seen, procedure, NEVER);
    let levels = match codes.get(procedure) {
        Some(code) => levels_in(codes, seen, &code.blocks, left),
        None => NEVER,
    };
    note(seen, procedure, levels);
    levels
}

/// What was found of that procedure; of one that isn't there too.
fn known(seen: &[Option<u32>], procedure: usize) -> Option<u32> {
    match seen.get(procedure) {
        Some(levels) => *levels,
        None => Some(NEVER),
    }
}

fn note(seen: &mut Vec<Option<u32>>, procedure: usize, levels: u32) {
    if procedure < seen.len() {
        seen[procedure] = Some(levels);
    }
}

#[cycle(looking)]
fn levels_in(codes: &[Code], seen: &mut Vec<Option<u32>>, blocks: &[CodeBlock], left: u32) -> u32 {
    let mut levels = 0;
    for block in blocks {
        for instruction in &block.instructions {
            levels = levels.max(levels_at(codes, seen, &instruction.operation, left));
            if levels > LEVELS {
                return NEVER;
            }
        }
    }
    levels
}

#[cycle(looking)]
fn levels_at(codes: &[Code], seen: &mut Vec<Option<u32>>, operation: &Operation, left: u32) -> u32 {
    match operation {
        Operation::Bind(_, _) => 0,
        Operation::Update(_, _) => 0,
        Operation::If(_, _, _) => 0,
        Operation::Return(_) => 0,
        Operation::Enter(_, way, callee, _) => levels_called(codes, seen, *way, *callee, left),
        _ => NEVER,
    }
}

/// The same of a call of that procedure, which isn't marked memo.
#[cycle(looking)]
fn levels_called(
    codes: &[Code],
    seen: &mut Vec<Option<u32>>,
    way: Way,
    callee: usize,
    left: u32,
) -> u32 {
    if left == 0 || !is_call(way) || is_memo(codes, callee) {
        return NEVER;
    }
    levels_of(codes, seen, callee, left - 1).saturating_add(1)
}

fn is_memo(codes: &[Code], procedure: usize) -> bool {
    match codes.get(procedure) {
        Some(code) => code.memo,
        None => false,
    }
}
