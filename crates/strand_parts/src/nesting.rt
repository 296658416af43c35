// Whether the instances of procedures that are marked `memo` may have others inside.
ghost use Rattle.std.specs.Prelude.{◌≡◌, ◌&&◌};
ghost use Rattle.std.specs.List.{list_any};
ghost use Rattle.positions.specs.Code.{enters_others, has_entering, may_nest};

use linked_program::code::{Code, CodeBlock, Instruction, Operation};

/// Whether some procedure that is marked `memo` has a statement that enters others.
pub(crate) fn may_nest(codes: &[Code]) -> bool
    ensures nest { result ≡ may_nest codes.now }
{
    for code in codes {
        if is_nesting(code) {
            return true;
        }
    }
    false
}

fn is_nesting(code: &Code) -> bool
    ensures nesting { result ≡ (code.now.memo && has_entering code.now) }
{
    code.memo && is_one_entering(&code.blocks)
}

fn is_one_entering(blocks: &[CodeBlock]) -> bool
    ensures entering { result
        ≡ list_any (λ b. list_any (λ i. enters_others i.operation) b.instructions.items) blocks.now }
{
    for block in blocks {
        if is_entering(&block.instructions) {
            return true;
        }
    }
    false
}

fn is_entering(instructions: &[Instruction]) -> bool
    ensures entering { result ≡ list_any (λ i. enters_others i.operation) instructions.now }
{
    for instruction in instructions {
        if enters_others(&instruction.operation) {
            return true;
        }
    }
    false
}

/// Whether a statement enters others.
fn enters_others(operation: &Operation) -> bool
    ensures enters { result ≡ enters_others operation.now }
{
    match operation {
        Operation::Enter(..) | Operation::Loop(..) => true,
        _ => false,
    }
}
