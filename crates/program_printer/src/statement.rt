//! Prints statements.

ghost use Rattle.std.specs.Prelude.{◌≡◌, ◌++◌, ◌∷◌, OnOk, map, string_bytes, pos};
ghost use Rattle.meaning.specs.Tree.{bind, enter, read, update, give};
ghost use Rattle.meaning.specs.TreeView.{term};
ghost use Rattle.token_scanner.specs.Words.{Word, Sign, Number};
ghost use Rattle.token_scanner.specs.Words as word;
ghost use Rattle.token_scanner.specs.declared.token.Mark.TheVariants as mark;
ghost use Rattle.token_spelling.specs.Spelling.{Puts, Grows};
ghost use Rattle.program_printer.specs.Printing.{variable, term_words, terms_words, more_terms, entry_words, bound_words, way_mark};
ghost use Rattle.program_printer.specs.Printing.{deed_words, names_of, range_words, loop_words};

use crate::expression::{put_expression, variable};
use meaning::tree::{Expr, Procedure, Way};
use std::alloc::AllocError;
use std::fmt::Write;
use token_spelling::put_end;

/// Puts a variable and the mark behind it that binds it at the end of the text.
#[tactic(auto, unfolding(token_spelling::specs::Spelling::written))]
fn put_target(text: &mut String, procedure: &Procedure, number: usize) -> Result<(), AllocError>
    ensures { OnOk result (Grows text.old text.new (λ us. word.Name (variable (names_of procedure.now) number) ∷ Sign mark.Assign ∷ us)) }
{
    let name = variable(procedure, number);
    write!(text, "{name} = ")
}

/// Puts expressions, each behind a comma, at the end of the text.
fn put_more(text: &mut String, procedure: &Procedure, exprs: &[Expr]) -> Result<(), AllocError>
    ensures { OnOk result (Grows text.old text.new (more_terms (names_of procedure.now) (map term exprs.now))) }
{
    for expr in exprs {
        put_next(text, procedure, expr)?;
    }
    Ok(())
}

/// Puts a comma and an expression at the end of the text.
#[tactic(auto, unfolding(token_spelling::specs::Spelling::written))]
fn put_next(text: &mut String, procedure: &Procedure, expr: &Expr) -> Result<(), AllocError>
    ensures { OnOk result (Grows text.old text.new (λ us. Sign mark.Comma ∷ term_words (names_of procedure.now) (term expr.now) us)) }
{
    text.push_str(", ")?;
    put_expression(text, procedure, expr)
}

/// Puts expressions, parted by commas, at the end of the text.
fn put_expressions(
    text: &mut String,
    procedure: &Procedure,
    exprs: &[Expr],
) -> Result<(), AllocError>
    ensures { OnOk result (Grows text.old text.new (terms_words (names_of procedure.now) (map term exprs.now))) }
{
    match exprs {
        [] => Ok(()),
        [first, rest @ ..] => {
            put_expression(text, procedure, first)?;
            put_more(text, procedure, rest)
        }
    }
}

/// Puts the name of the procedure that is entered, its arguments and the end of the statement at the end of the text.
#[tactic(auto, unfolding(token_spelling::specs::Spelling::written))]
pub(crate) fn put_entry(
    text: &mut String,
    procedure: &Procedure,
    callee: &str,
    arguments: &[Expr],
) -> Result<(), AllocError>
    ensures { OnOk result (Grows text.old text.new
        (entry_words (names_of procedure.now) callee.now (map term arguments.now))) }
{
    write!(text, "{callee} ( ")?;
    put_expressions(text, procedure, arguments)?;
    text.push_str(") ;\n")
}

/// Puts the variable that takes an entry's value, and the mark behind it, at the end of the text.
fn put_bound(
    text: &mut String,
    procedure: &Procedure,
    bound: Option<usize>,
) -> Result<(), AllocError>
    ensures { OnOk result (Grows text.old text.new (bound_words (names_of procedure.now) bound)) }
{
    match bound {
        None => Ok(()),
        Some(number) => put_target(text, procedure, number),
    }
}

/// Puts the word for how a procedure is entered at the end of the text.
#[tactic(auto, unfolding(token_spelling::specs::Spelling::written))]
fn put_way(text: &mut String, way: Way) -> Result<(), AllocError>
    ensures { OnOk result (Grows text.old text.new (λ us. Sign (way_mark way) ∷ us)) }
{
    match way {
        Way::Call => text.push_str("call "),
        Way::Spawn => text.push_str("spawn "),
    }
}

/// Puts an expression and the end of the statement at the end of the text.
fn put_last(text: &mut String, procedure: &Procedure, expr: &Expr) -> Result<(), AllocError>
    ensures { OnOk result (Grows text.old text.new (λ us. term_words (names_of procedure.now) (term expr.now) (Sign mark.Semicolon ∷ us))) }
{
    put_expression(text, procedure, expr)?;
    put_end(text)
}

/// Puts a statement that binds a variable to a value at the end of the text.
pub(crate) fn put_bind(
    text: &mut String,
    procedure: &Procedure,
    number: usize,
    value: &Expr,
) -> Result<(), AllocError>
    ensures { OnOk result (Grows text.old text.new
        (deed_words (names_of procedure.now) (bind number (term value.now)))) }
{
    put_target(text, procedure, number)?;
    put_last(text, procedure, value)
}

/// Puts a statement that enters a procedure at the end of the text.
pub(crate) fn put_enter(
    text: &mut String,
    procedure: &Procedure,
    bound: Option<usize>,
    way: Way,
    callee: &str,
    arguments: &[Expr],
) -> Result<(), AllocError>
    ensures { OnOk result (Grows text.old text.new
        (deed_words (names_of procedure.now) (enter bound way callee.now (map term arguments.now)))) }
{
    put_bound(text, procedure, bound)?;
    put_way(text, way)?;
    put_entry(text, procedure, callee, arguments)
}

/// Puts a statement that binds a variable to a reducer's value at the end of the text.
#[tactic(auto, unfolding(token_spelling::specs::Spelling::written))]
pub(crate) fn put_read(
    text: &mut String,
    procedure: &Procedure,
    number: usize,
    reducer: &str,
) -> Result<(), AllocError>
    ensures { OnOk result (Grows text.old text.new
        (deed_words (names_of procedure.now) (read number reducer.now))) }
{
    let name = variable(procedure, number);
    write!(text, "{name} = read {reducer} ;\n")
}

/// Puts a statement that waits for all children at the end of the text.
#[tactic(auto, unfolding(token_spelling::specs::Spelling::written))]
pub(crate) fn put_sync(text: &mut String) -> Result<(), AllocError>
    ensures { OnOk result (Grows text.old text.new
        (λ us. Sign mark.Sync ∷ Sign mark.Semicolon ∷ us)) }
{
    text.push_str("sync ;\n")
}

/// Puts a statement that updates a reducer at the end of the text.
#[tactic(auto, unfolding(token_spelling::specs::Spelling::written))]
pub(crate) fn put_update(
    text: &mut String,
    procedure: &Procedure,
    reducer: &str,
    numbers: &[Expr],
) -> Result<(), AllocError>
    ensures { OnOk result (Grows text.old text.new
        (deed_words (names_of procedure.now) (update reducer.now (map term numbers.now)))) }
{
    write!(text, "update {reducer} ")?;
    put_expressions(text, procedure, numbers)?;
    put_end(text)
}

/// Puts the bounds of a loop and its grain at the end of the text.
#[tactic(auto, unfolding(token_spelling::specs::Spelling::written))]
fn put_range(
    text: &mut String,
    procedure: &Procedure,
    low: &Expr,
    high: &Expr,
    grain: u32,
) -> Result<(), AllocError>
    ensures { OnOk result (Grows text.old text.new (range_words (names_of procedure.now) (term low.now) (term high.now) grain)) }
{
    put_expression(text, procedure, low)?;
    text.push_str(".. ")?;
    put_expression(text, procedure, high)?;
    write!(text, "grain {grain} : ")
}

/// Puts what stands before the procedure that a loop enters at the end of the text.
#[tactic(auto, unfolding(token_spelling::specs::Spelling::written))]
pub(crate) fn put_loop_head(
    text: &mut String,
    procedure: &Procedure,
    number: usize,
    low: &Expr,
    high: &Expr,
    grain: u32,
) -> Result<(), AllocError>
    ensures { OnOk result (Grows text.old text.new
        (loop_words (names_of procedure.now) number (term low.now) (term high.now) grain)) }
{
    let name = variable(procedure, number);
    write!(text, "cilk_for {name} in ")?;
    put_range(text, procedure, low, high, grain)
}

/// Puts a statement that gives the procedure's value at the end of the text.
#[tactic(auto, unfolding(token_spelling::specs::Spelling::written))]
pub(crate) fn put_return(
    text: &mut String,
    procedure: &Procedure,
    value: &Expr,
) -> Result<(), AllocError>
    ensures { OnOk result (Grows text.old text.new
        (deed_words (names_of procedure.now) (give (term value.now)))) }
{
    text.push_str("return ")?;
    put_last(text, procedure, value)
}
