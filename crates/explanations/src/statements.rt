//! Statements, as a text might have them.

use crate::expressions::{push_expression, variable};
use meaning::tree::{Action, Declaration, Expr, Procedure, Program, Statement, Way};
use text_page::Page;

/// The procedure of that number, counted from 0 in the order of the program.
pub(crate) fn procedure_at(program: &Program, number: usize) -> Option<&Procedure> {
    let mut before = number;
    for declaration in &program.declarations {
        if let Declaration::Procedure(procedure) = declaration {
            if before == 0 {
                return Some(procedure);
            }
            before -= 1;
        }
    }
    None
}

/// The procedure of that name.
pub(crate) fn procedure_called<'a>(program: &'a Program, name: &str) -> Option<&'a Procedure> {
    for declaration in &program.declarations {
        if let Declaration::Procedure(procedure) = declaration {
            if procedure.name.as_str() == name {
                return Some(procedure);
            }
        }
    }
    None
}

/// The statement of that number in a procedure.
pub(crate) fn statement_at(procedure: &Procedure, number: u32) -> Option<&Statement> {
    for block in &procedure.blocks {
        for statement in &block.statements {
            if statement.number == number {
                return Some(statement);
            }
        }
    }
    None
}

/// The first statement of a procedure that stands on that line.
pub(crate) fn statement_on(procedure: &Procedure, line: u32) -> Option<&Statement> {
    for block in &procedure.blocks {
        for statement in &block.statements {
            if statement.line == line {
                return Some(statement);
            }
        }
    }
    None
}

/// Puts what a statement of a procedure does, without the blocks inside it, at the end of the text.
pub(crate) fn push_statement(text: &mut Page, procedure: &Procedure, action: &Action) {
    match action {
        Action::Bind(x, value) => {
            push_target(text, procedure, Some(*x));
            push_end(text, procedure, value)
        }
        Action::Enter(x, way, callee, arguments) => {
            push_target(text, procedure, *x);
            text.put(word_of(*way));
            push_entry(text, procedure, callee, arguments)
        }
        Action::Read(x, reducer) => {
            push_target(text, procedure, Some(*x));
            text.put_named("read ", reducer, ";")
        }
        Action::Sync => text.put("sync;"),
        Action::Update(reducer, numbers) => push_update(text, procedure, reducer, numbers),
        Action::If(condition, _, _) => push_test(text, procedure, condition),
        Action::Loop(x, low, high, grain, callee, arguments) => {
            text.put_named("cilk_for ", variable(procedure, *x), " in ");
            push_range(text, procedure, low, high, *grain);
            push_entry(text, procedure, callee, arguments)
        }
        Action::Return(value) => {
            text.put("return ");
            push_end(text, procedure, value)
        }
    }
}

// Puts the name that a statement binds, if it binds one.
fn push_target(text: &mut Page, procedure: &Procedure, x: Option<usize>) {
    match x {
        None => {}
        Some(x) => text.put_named("", variable(procedure, x), " = "),
    }
}

// Puts an `if` without its blocks.
fn push_test(text: &mut Page, procedure: &Procedure, condition: &Expr) {
    text.put("if ");
    push_expression(text, procedure, condition);
    text.put(" { .. }")
}

fn word_of(way: Way) -> &'static str {
    match way {
        Way::Call => "call ",
        Way::Spawn => "spawn ",
    }
}

// Puts a value and the end of a statement.
fn push_end(text: &mut Page, procedure: &Procedure, value: &Expr) {
    push_expression(text, procedure, value);
    text.put(";")
}

fn push_update(text: &mut Page, procedure: &Procedure, reducer: &str, numbers: &[Expr]) {
    text.put_named("update ", reducer, " ");
    push_all(text, procedure, numbers);
    text.put(";")
}

// Puts the bounds of a loop, and its grain where that isn't 1.
fn push_range(text: &mut Page, procedure: &Procedure, low: &Expr, high: &Expr, grain: u32) {
    push_expression(text, procedure, low);
    text.put(" .. ");
    push_expression(text, procedure, high);
    if grain != 1 {
        text.put_count(" grain ", u64::from(grain), "");
    }
    text.put(" : ")
}

// Puts the procedure that is entered, with its arguments and the end of the statement.
fn push_entry(text: &mut Page, procedure: &Procedure, callee: &str, arguments: &[Expr]) {
    text.put_named("", callee, "(");
    push_all(text, procedure, arguments);
    text.put(");")
}

// Puts expressions with a comma between two.
fn push_all(text: &mut Page, procedure: &Procedure, expressions: &[Expr]) {
    for (number, expression) in expressions.iter().enumerate() {
        if number > 0 {
            text.put(", ");
        }
        push_expression(text, procedure, expression);
    }
}
