//! Prints expressions.

ghost use Rattle.std.specs.Prelude.{◌≡◌, ◌++◌, ◌∷◌, OnOk, map, string_bytes};
ghost use Rattle.meaning.specs.Tree.{cell, binary};
ghost use Rattle.meaning.specs.TreeView.{term};
ghost use Rattle.token_scanner.specs.Words.{Word, Sign};
ghost use Rattle.token_scanner.specs.declared.token.Mark.TheVariants as mark;
ghost use Rattle.token_spelling.specs.Spelling.{Puts, Grows};
ghost use Rattle.program_printer.specs.Printing.{variable, term_words, operator_mark, names_of};

use meaning::tree::{Expr, Operator, Procedure};
use std::alloc::AllocError;
use std::fmt::Write;
use token_spelling::{put_close, put_open};

/// The name of a variable; none has a number past the pool's end.
pub(crate) fn variable(procedure: &Procedure, number: usize) -> &str
    ensures { result.now ≡ variable (names_of procedure.now) number }
{
    match procedure.names.get(number) {
        Some(name) => name.as_str(),
        None => "",
    }
}

/// Puts an operator at the end of the text.
#[tactic(auto, unfolding(token_spelling::specs::Spelling::written))]
fn put_operator(text: &mut String, operator: Operator) -> Result<(), AllocError>
    ensures { OnOk result (Grows text.old text.new (λ us. Sign (operator_mark operator) ∷ us)) }
{
    match operator {
        Operator::Add => text.push_str("+ "),
        Operator::Subtract => text.push_str("- "),
        Operator::Multiply => text.push_str("* "),
        Operator::Divide => text.push_str("/ "),
        Operator::Remainder => text.push_str("% "),
        Operator::Equal => text.push_str("== "),
        Operator::Unequal => text.push_str("!= "),
        Operator::Less => text.push_str("< "),
        Operator::AtMost => text.push_str("<= "),
        Operator::Greater => text.push_str("> "),
        Operator::AtLeast => text.push_str(">= "),
    }
}

/// Puts a cell at the end of the text.
#[cycle(expressions)]
#[tactic(auto, unfolding(token_spelling::specs::Spelling::written))]
fn put_cell(
    text: &mut String,
    procedure: &Procedure,
    table: &str,
    row: &Expr,
    column: &str,
) -> Result<(), AllocError>
    ensures { OnOk result (Grows text.old text.new (term_words (names_of procedure.now) (cell table.now (term row.now) column.now))) }
{
    write!(text, "{table} [ ")?;
    put_expression(text, procedure, row)?;
    write!(text, "] . {column} ")
}

/// Puts a binary operation in parentheses at the end of the text.
#[cycle(expressions)]
fn put_binary(
    text: &mut String,
    procedure: &Procedure,
    operator: Operator,
    left: &Expr,
    right: &Expr,
) -> Result<(), AllocError>
    ensures { OnOk result (Grows text.old text.new (term_words (names_of procedure.now) (binary operator (term left.now) (term right.now)))) }
{
    put_open(text)?;
    put_expression(text, procedure, left)?;
    put_operator(text, operator)?;
    put_expression(text, procedure, right)?;
    put_close(text)
}

/// Puts an expression at the end of the text.
#[cycle(expressions)]
#[tactic(auto, unfolding(token_spelling::specs::Spelling::written))]
pub(crate) fn put_expression(
    text: &mut String,
    procedure: &Procedure,
    expr: &Expr,
) -> Result<(), AllocError>
    ensures { OnOk result (Grows text.old text.new
        (term_words (names_of procedure.now) (term expr.now))) }
{
    match expr {
        Expr::Number(n) => write!(text, "{n} "),
        Expr::Name(n) => {
            let name = variable(procedure, *n);
            write!(text, "{name} ")
        }
        Expr::Limit(table) => write!(text, "limit {table} "),
        Expr::Sum(table, column) => write!(text, "sum {table} . {column} "),
        Expr::Cell(table, row, column) => put_cell(text, procedure, table, row, column),
        Expr::Has(table, row) => {
            write!(text, "has {table} [ ")?;
            put_expression(text, procedure, row)?;
            text.push_str("] ")
        }
        Expr::Negate(inner) => {
            text.push_str("( - ")?;
            put_expression(text, procedure, inner)?;
            put_close(text)
        }
        Expr::Binary(operator, left, right) => {
            put_binary(text, procedure, *operator, left, right)
        }
    }
}
