// What stands in the code at a position.
ghost use Rattle.std.specs.Prelude.{◌≡◌, ◌+◌, ◌<◌, ◌^◌, ℕ, option_copied, slice_get, OnSome};
ghost use Rattle.positions.specs.Code.{instruction_inside, loop_at};
ghost use Rattle.activations.specs.Given.{loop_of};

use linked_program::checked::Checked;
use linked_program::code::{Expression, Instruction, Operation};
use positions::work::{Loop, Position};

/// The instruction at a position that has so many blocks around it.
pub fn instruction(
    program: &Checked,
    procedure: usize,
    depth: usize,
    position: Position,
) -> Option<&Instruction>
    ensures found { option_copied result ≡ instruction_inside program.now.codes procedure depth position }
    ensures small { OnSome result (position.index + 1 < 2 ^ 64) }
{
    match program.codes().get(procedure) {
        None => None,
        Some(code) => {
            if depth < code.blocks.len() {
                program.instruction(procedure, position.block, position.index)
            } else {
                None
            }
        }
    }
}

/// The instructions of a block that has so many blocks around it; none where there is no such block.
pub fn instructions(
    program: &Checked,
    procedure: usize,
    depth: usize,
    block: usize,
) -> &[Instruction]
    ensures found { (index : ℕ) → slice_get result.now index ≡ instruction_inside program.now.codes procedure depth (record { block = block; index = index }) }
{
    match program.codes().get(procedure) {
        None => &[],
        Some(code) => match code.blocks.get(block) {
            Some(found) if depth < code.blocks.len() => &found.instructions,
            _ => &[],
        },
    }
}

/// A loop's statement: its number, its variable's slot, its grain, and what its iterations enter.
#[derive(Clone, Copy)]
pub struct LoopCode<'a> {
    pub number: u32,
    pub variable: usize,
    pub grain: u32,
    pub callee: usize,
    pub arguments: &'a [Expression],
}

/// The statement of a loop of a procedure; that of none where no loop stands there.
pub fn loop_code(program: &Checked, procedure: usize, place: Loop) -> LoopCode
    ensures found { loop_of result ≡ loop_at program.now.codes procedure place }
{
    if let Some(instruction) = program.instruction(procedure, place.block, place.index) {
        if let Operation::Loop(variable, _, _, grain, callee, arguments) = &instruction.operation {
            return LoopCode {
                number: instruction.number,
                variable: *variable,
                grain: *grain,
                callee: *callee,
                arguments: arguments.as_slice(),
            };
        }
    }
    LoopCode {
        number: 0,
        variable: 0,
        grain: 0,
        callee: 0,
        arguments: &[],
    }
}
