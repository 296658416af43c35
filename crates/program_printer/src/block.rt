//! Prints blocks, whose statements may lead to further blocks.

ghost use Rattle.std.specs.Prelude.{◌≡◌, ◌++◌, ◌∷◌, ℕ, slice_get, OnOk, map, string_bytes};
ghost use Rattle.meaning.specs.Tree.{Body, choose};
ghost use Rattle.meaning.specs.TreeView.{term, deed, statements, statements_of, block};
ghost use Rattle.token_scanner.specs.Words.{Word, Sign};
ghost use Rattle.token_scanner.specs.declared.token.Mark.TheVariants as mark;
ghost use Rattle.token_spelling.specs.Spelling.{Puts, Grows, GrowsByBlock};
ghost use Rattle.program_printer.specs.Printing.{test_words, deed_words, body_words, else_words, is_end, names_of};

use crate::expression::put_expression;
use crate::statement::{
    put_bind, put_enter, put_entry, put_loop_head, put_read, put_return, put_sync, put_update,
};
use meaning::tree::{Action, Expr, Procedure, Statement};
use std::alloc::AllocError;

/// The statements of a block; none where no block has the number.
#[tactic(auto, using(std::proofs::lemmas::Option::slice_get_read))]
fn statements_of(procedure: &Procedure, number: usize) -> &[Statement]
    ensures { (inner : ℕ → Body) → statements_of inner (slice_get procedure.now.blocks.items number) ≡ statements inner result.now }
{
    match procedure.blocks.get(number) {
        None => &[],
        Some(block) => &block.statements,
    }
}

/// Whether a block has no statements; `levels` is how deep blocks may nest.
fn is_empty(procedure: &Procedure, levels: usize, number: usize) -> bool
    ensures { result ≡ is_end (block procedure.now.blocks.items levels number) }
{
    levels == 0 || statements_of(procedure, number).is_empty()
}

/// Puts the condition of an `if` and the mark that opens its block at the end of the text.
#[tactic(auto, unfolding(token_spelling::specs::Spelling::written))]
fn put_test(text: &mut String, procedure: &Procedure, condition: &Expr) -> Result<(), AllocError>
    ensures { OnOk result (Grows text.old text.new (test_words (names_of procedure.now) (term condition.now))) }
{
    text.push_str("if ")?;
    put_expression(text, procedure, condition)?;
    text.push_str("{\n")
}

/// Puts the mark that closes a block at the end of the text.
#[tactic(auto, unfolding(token_spelling::specs::Spelling::written))]
pub(crate) fn put_close(text: &mut String) -> Result<(), AllocError>
    ensures { OnOk result (GrowsByBlock text.old text.new (λ us. Sign mark.CloseBrace ∷ us)) }
{
    text.push_str("}\n")
}

/// Puts the marks between an `if`'s block and its `else`'s at the end of the text.
#[tactic(auto, unfolding(token_spelling::specs::Spelling::written))]
fn put_otherwise(text: &mut String) -> Result<(), AllocError>
    ensures { OnOk result (Grows text.old text.new (λ us. Sign mark.CloseBrace ∷ Sign mark.Else ∷ Sign mark.OpenBrace ∷ us)) }
{
    text.push_str("} else {\n")
}

/// Puts a statement at the end of the text.
#[cycle(printing)]
fn put_statement(
    text: &mut String,
    procedure: &Procedure,
    levels: usize,
    statement: &Statement,
) -> Result<(), AllocError>
    ensures { OnOk result (GrowsByBlock text.old text.new
        (deed_words (names_of procedure.now) (deed (block procedure.now.blocks.items levels) statement.now.action))) }
{
    match &statement.action {
        Action::Bind(x, value) => put_bind(text, procedure, *x, value),
        Action::Enter(x, way, callee, arguments) => {
            put_enter(text, procedure, *x, *way, callee, arguments)
        }
        Action::Read(x, reducer) => put_read(text, procedure, *x, reducer),
        Action::Sync => put_sync(text),
        Action::Update(reducer, numbers) => put_update(text, procedure, reducer, numbers),
        Action::If(condition, then, otherwise) => {
            put_if(text, procedure, levels, condition, *then, *otherwise)
        }
        Action::Loop(x, low, high, grain, callee, arguments) => {
            put_loop_head(text, procedure, *x, low, high, *grain)?;
            put_entry(text, procedure, callee, arguments)
        }
        Action::Return(value) => put_return(text, procedure, value),
    }
}

/// Puts an `if` at the end of the text.
#[cycle(printing)]
fn put_if(
    text: &mut String,
    procedure: &Procedure,
    levels: usize,
    condition: &Expr,
    then: usize,
    otherwise: usize,
) -> Result<(), AllocError>
    ensures { OnOk result (GrowsByBlock text.old text.new
        (deed_words (names_of procedure.now) (choose (term condition.now) (block procedure.now.blocks.items levels then)
        (block procedure.now.blocks.items levels otherwise)))) }
{
    put_test(text, procedure, condition)?;
    put_block(text, procedure, levels, then)?;
    put_else(text, procedure, levels, otherwise)
}

/// Puts the end of a block and, where it has statements, the `else` behind it at the end of the text.
#[cycle(printing)]
fn put_else(
    text: &mut String,
    procedure: &Procedure,
    levels: usize,
    otherwise: usize,
) -> Result<(), AllocError>
    ensures { OnOk result (GrowsByBlock text.old text.new
        (λ us. Sign mark.CloseBrace ∷ else_words (names_of procedure.now) (block procedure.now.blocks.items levels otherwise) us)) }
{
    if is_empty(procedure, levels, otherwise) {
        return put_close(text);
    }
    put_otherwise(text)?;
    put_block(text, procedure, levels, otherwise)?;
    put_close(text)
}

/// Puts the statements of a block at the end of the text.
#[cycle(printing)]
pub(crate) fn put_block(
    text: &mut String,
    procedure: &Procedure,
    levels: usize,
    number: usize,
) -> Result<(), AllocError>
    ensures { OnOk result (GrowsByBlock text.old text.new
        (body_words (names_of procedure.now) (block procedure.now.blocks.items levels number))) }
{
    if levels == 0 {
        return Ok(());
    }
    let body = statements_of(procedure, number);
    put_statements(text, procedure, levels - 1, body)
}

/// Puts statements at the end of the text.
#[cycle(printing)]
fn put_statements(
    text: &mut String,
    procedure: &Procedure,
    levels: usize,
    body: &[Statement],
) -> Result<(), AllocError>
    ensures { OnOk result (GrowsByBlock text.old text.new
        (body_words (names_of procedure.now) (statements (block procedure.now.blocks.items levels) body.now))) }
{
    for statement in body {
        put_statement(text, procedure, levels, statement)?;
    }
    Ok(())
}
