//! The statements that may come after a read: plain binds, reads, returns, and `if`s of these.
ghost use Rattle.std.specs.Prelude.{◌≡◌};
ghost use Rattle.meaning.specs.TreeView.{block, deed, statements as body_of};
ghost use Rattle.linked_program.specs.Rules.{is_quiet as is_quiet_deed, are_quiet as is_quiet_body};

use meaning::tree::{Action, Block, Statement};

/// Whether the statement is one of these, where blocks nest at most so many levels.
#[cycle(quiet)]
pub(crate) fn is_quiet(blocks: &[Block], levels: usize, action: &Action) -> bool
    ensures quiet { result ≡ is_quiet_deed (deed (block blocks.now levels) action.now) }
{
    match action {
        Action::Bind(_, _) | Action::Read(_, _) | Action::Return(_) => true,
        Action::If(_, first, second) => is_quiet_block(blocks, levels, *first)
            && is_quiet_block(blocks, levels, *second),
        Action::Enter(_, _, _, _)
        | Action::Sync
        | Action::Update(_, _)
        | Action::Loop(_, _, _, _, _, _) => false,
    }
}

// Whether the block of that number has only these.
#[cycle(quiet)]
fn is_quiet_block(blocks: &[Block], levels: usize, number: usize) -> bool
    ensures quiet { result ≡ is_quiet_body (block blocks.now levels number) }
{
    if levels == 0 {
        return true;
    }
    match blocks.get(number) {
        None => true,
        Some(inner) => are_quiet(blocks, levels - 1, &inner.statements),
    }
}

// Whether all of the statements are these.
#[cycle(quiet)]
fn are_quiet(blocks: &[Block], levels: usize, statements: &[Statement]) -> bool
    ensures quiet { result ≡ is_quiet_body (body_of (block blocks.now levels) statements.now) }
{
    for statement in statements {
        if !is_quiet(blocks, levels, &statement.action) {
            return false;
        }
    }
    true
}
