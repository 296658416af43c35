//! The rules of expressions: names that are known and don't wait, tables and columns that there are.
ghost use Rattle.std.specs.Prelude.{◌≡◌, map, option_map, option_copied};
ghost use Rattle.meaning.specs.TreeView.{term};
ghost use Rattle.linked_program.specs.TableNames.{columned};
ghost use Rattle.linked_program.specs.Rules.{term_rules, terms_rules, table_rules, column_rules};
ghost use Rattle.linked_program.specs.Violations.{noted, at};

use crate::location::{Location, note, note_if};
use crate::names::table_of;
use crate::scope::Scope;
use linked_program::tables::TableNames;
use linked_program::violation::{Rule, Violation};
use meaning::tree::Expr;
use rule_parts::named::lacks_column;

// The first violation so far or that of the use of a table.
fn note_table(
    first: Option<Violation>,
    location: Location,
    table: Option<&TableNames>,
) -> Option<Violation>
    ensures { result ≡ noted first (at location.declaration location.line (table_rules (option_map columned (option_copied table.entry)))) }
{
    match table {
        None => note(first, location, Rule::Table),
        Some(_) => first,
    }
}

// The first violation so far, or that of the use of a table's column.
fn note_column(
    first: Option<Violation>,
    location: Location,
    table: Option<&TableNames>,
    column: &str,
) -> Option<Violation>
    ensures { result ≡ noted first (at location.declaration location.line (column_rules (option_map columned (option_copied table.entry)) column.now)) }
{
    match table {
        None => note(first, location, Rule::Table),
        Some(table) => note_if(first, lacks_column(table, column), location, Rule::Table),
    }
}

/// The first violation so far or that of an expression.
#[tactic(auto, using(crate::proofs::Noting::noted_more))]
pub fn note_term(
    first: Option<Violation>,
    location: Location,
    tables: &[TableNames],
    scope: &Scope,
    expr: &Expr,
) -> Option<Violation>
    ensures { result ≡ noted first (at location.declaration location.line
        (term_rules (map columned tables.now) scope.now (term expr.now))) }
{
    match expr {
        Expr::Number(_) => first,
        Expr::Name(name) => scope.note_use(first, location, *name),
        Expr::Cell(table, row, column) => {
            let found = table_of(tables, table.as_str());
            let first = note_column(first, location, found, column.as_str());
            note_term(first, location, tables, scope, row)
        }
        Expr::Has(table, row) => {
            let first = note_table(first, location, table_of(tables, table.as_str()));
            note_term(first, location, tables, scope, row)
        }
        Expr::Limit(table) => note_table(first, location, table_of(tables, table.as_str())),
        Expr::Sum(table, column) => {
            let found = table_of(tables, table.as_str());
            note_column(first, location, found, column.as_str())
        }
        Expr::Negate(inner) => note_term(first, location, tables, scope, inner),
        Expr::Binary(_, left, right) => {
            let first = note_term(first, location, tables, scope, left);
            note_term(first, location, tables, scope, right)
        }
    }
}

/// The first violation so far, or that of these expressions in their order.
#[tactic(auto, using(crate::proofs::Noting::noted_more))]
pub fn note_terms(
    first: Option<Violation>,
    location: Location,
    tables: &[TableNames],
    scope: &Scope,
    exprs: &[Expr],
) -> Option<Violation>
    ensures { result ≡ noted first (at location.declaration location.line
        (terms_rules (map columned tables.now) scope.now (map term exprs.now))) }
{
    let mut found = first;
    for expr in exprs {
        found = note_term(found, location, tables, scope, expr);
    }
    found
}
