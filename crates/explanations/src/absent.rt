//! Which table or column of an expression there isn't.

use crate::broken::Broken;
use input_tables::Tables;
use meaning::tree::{Action, Expr};

/// The first table or column of a statement that isn't among the tables.
pub(crate) fn absent_of<'a>(action: &'a Action, tables: &Tables) -> Option<Broken<'a>> {
    match action {
        Action::Bind(_, value) => absent_in(value, tables),
        Action::If(condition, _, _) => absent_in(condition, tables),
        Action::Return(value) => absent_in(value, tables),
        Action::Enter(_, _, _, arguments) => absent_among(arguments, tables),
        Action::Update(_, numbers) => absent_among(numbers, tables),
        Action::Loop(_, low, high, _, _, arguments) => match absent_in(low, tables) {
            Some(broken) => Some(broken),
            None => match absent_in(high, tables) {
                Some(broken) => Some(broken),
                None => absent_among(arguments, tables),
            },
        },
        Action::Read(_, _) | Action::Sync => None,
    }
}

fn absent_among<'a>(expressions: &'a [Expr], tables: &Tables) -> Option<Broken<'a>> {
    for expression in expressions {
        if let Some(broken) = absent_in(expression, tables) {
            return Some(broken);
        }
    }
    None
}

fn absent_in<'a>(expression: &'a Expr, tables: &Tables) -> Option<Broken<'a>> {
    match expression {
        Expr::Cell(table, row, column) => match absent_column(table, column, tables) {
            Some(broken) => Some(broken),
            None => absent_in(row, tables),
        },
        Expr::Has(table, row) => match absent_table(table, tables) {
            Some(broken) => Some(broken),
            None => absent_in(row, tables),
        },
        Expr::Limit(table) => absent_table(table, tables),
        Expr::Sum(table, column) => absent_column(table, column, tables),
        Expr::Negate(inner) => absent_in(inner, tables),
        Expr::Binary(_, left, right) => match absent_in(left, tables) {
            Some(broken) => Some(broken),
            None => absent_in(right, tables),
        },
        Expr::Number(_) | Expr::Name(_) => None,
    }
}

fn absent_table<'a>(table: &'a str, tables: &Tables) -> Option<Broken<'a>> {
    if tables.table(table).is_some() {
        return None;
    }
    Some(Broken::NoTable(table))
}

fn absent_column<'a>(table: &'a str, column: &'a str, tables: &Tables) -> Option<Broken<'a>> {
    let Some(number) = tables.table(table) else {
        return Some(Broken::NoTable(table));
    };
    for name in tables.columns(number) {
        if name.as_str() == column {
            return None;
        }
    }
    Some(Broken::NoColumn(table, column))
}
