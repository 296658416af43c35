//! Whether two expressions are the same.
ghost use Rattle.std.specs.Prelude.{◌≡◌, map};
ghost use Rattle.meaning.specs.TreeView.{term};
ghost use Rattle.meaning.specs.Edits.{same_operator as same_operators, same_term, same_terms};

use meaning::tree::{Expr, Operator};

fn same_operator(left: Operator, right: Operator) -> bool
    ensures { result ≡ same_operators left right }
{
    left == right
}

/// Whether two expressions are the same.
pub(crate) fn same_expression(left: &Expr, right: &Expr) -> bool
    ensures { result ≡ same_term (term left.now) (term right.now) }
{
    match left {
        Expr::Number(number) => match right {
            Expr::Number(other) => *number == *other,
            _ => false,
        },
        Expr::Name(name) => match right {
            Expr::Name(other) => *name == *other,
            _ => false,
        },
        Expr::Cell(table, row, column) => match right {
            Expr::Cell(other, other_row, other_column) => table.as_str() == other.as_str()
                && same_expression(row, other_row)
                && column.as_str() == other_column.as_str(),
            _ => false,
        },
        Expr::Has(table, row) => match right {
            Expr::Has(other, other_row) => table.as_str() == other.as_str()
                && same_expression(row, other_row),
            _ => false,
        },
        Expr::Limit(table) => match right {
            Expr::Limit(other) => table.as_str() == other.as_str(),
            _ => false,
        },
        Expr::Sum(table, column) => match right {
            Expr::Sum(other, other_column) => table.as_str() == other.as_str()
                && column.as_str() == other_column.as_str(),
            _ => false,
        },
        Expr::Negate(inner) => match right {
            Expr::Negate(other) => same_expression(inner, other),
            _ => false,
        },
        Expr::Binary(operator, first, second) => match right {
            Expr::Binary(other, other_first, other_second) => same_operator(*operator, *other)
                && same_expression(first, other_first)
                && same_expression(second, other_second),
            _ => false,
        },
    }
}

/// Whether two lists of expressions are the same.
pub(crate) fn same_expressions(left: &[Expr], right: &[Expr]) -> bool
    ensures { result ≡ same_terms (map term left.now) (map term right.now) }
{
    if left.len() != right.len() {
        return false;
    }
    for i in 0..left.len() {
        if !same_expression(&left[i], &right[i]) {
            return false;
        }
    }
    true
}
