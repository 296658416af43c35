// Whether the instances of procedures that are marked `memo` may have others inside.
use linked_program::code::{Code, CodeBlock, Instruction, Operation};

/// Whether some procedure that is marked `memo` has a statement that enters others.
pub(crate) fn may_nest(codes: &[Code]) -> bool {
    for code in codes {
        if code.memo && is_one_entering(&code.blocks) {
            return true;
        }
    }
    false
}

fn is_one_entering(blocks: &[CodeBlock]) -> bool {
    for block in blocks {
        if is_entering(&block.instructions) {
            return true;
        }
    }
    false
}

fn is_entering(instructions: &[Instruction]) -> bool {
    for instruction in instructions {
        if enters_others(&instruction.operation) {
            return true;
        }
    }
    false
}

fn enters_others(operation: &Operation) -> bool {
    match operation {
        Operation::Enter(..) | Operation::Loop(..) => true,
        _ => false,
    }
}
