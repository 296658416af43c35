//! The numbers of a program fit 64 bits: walks over its tree that only look at them.
ghost use Rattle.std.specs.Prelude.{ℕ, map};
ghost use Rattle.monoid_laws.specs.Kinds.{Fits};
ghost use Rattle.meaning.specs.Tree.{Body};
ghost use Rattle.meaning.specs.TreeView.{term, deed, statements as body_of, block, proc, tree};
ghost use Rattle.std.specs.List.{AllByRecursion};
ghost use Rattle.meaning.specs.Fitting.{FitsTerm, FitsDeed, FitsBody, ProgramFits};
ghost use Rattle.linked_program.specs.Fitting.{DeclarationFits};

use meaning::tree::{Action, Block, Declaration, Expr, Program, Statement};

fn number_fits(number: i64)
    ensures { Fits number }
{
    let _ = number;
}

fn expression_fits(expr: &Expr)
    ensures { FitsTerm (term expr.now) }
{
    match expr {
        Expr::Number(number) => number_fits(*number),
        Expr::Name(_) | Expr::Limit(_) | Expr::Sum(_, _) => {}
        Expr::Cell(_, row, _) => expression_fits(row),
        Expr::Has(_, row) => expression_fits(row),
        Expr::Negate(inner) => expression_fits(inner),
        Expr::Binary(_, left, right) => {
            expression_fits(left);
            expression_fits(right);
        }
    }
}

fn expressions_fit(exprs: &[Expr])
    ensures { AllByRecursion FitsTerm (map term exprs.now) }
{
    for expr in exprs {
        expression_fits(expr);
    }
}

fn action_fits(action: &Action)
    ensures { (inner : ℕ → Body) → ((n : ℕ) → FitsBody (inner n)) → FitsDeed (deed inner action.now) }
{
    match action {
        Action::Bind(_, value) => expression_fits(value),
        Action::Enter(_, _, _, arguments) => expressions_fit(arguments),
        Action::Read(_, _) | Action::Sync => {}
        Action::Update(_, values) => expressions_fit(values),
        Action::If(condition, _, _) => expression_fits(condition),
        Action::Loop(_, low, high, _, _, arguments) => {
            expression_fits(low);
            expression_fits(high);
            expressions_fit(arguments);
        }
        Action::Return(value) => expression_fits(value),
    }
}

fn statements_fit(statements: &[Statement])
    ensures { (inner : ℕ → Body) → ((n : ℕ) → FitsBody (inner n)) → FitsBody (body_of inner statements.now) }
{
    for statement in statements {
        action_fits(&statement.action);
    }
}

fn blocks_fit(blocks: &[Block])
    ensures { (levels number : ℕ) → FitsBody (block blocks.now levels number) }
{
    for block in blocks {
        statements_fit(&block.statements);
    }
}

fn initial_fits(numbers: &[i64])
    ensures { AllByRecursion Fits numbers.now }
{
    for number in numbers {
        number_fits(*number);
    }
}

fn declaration_fits(declaration: &Declaration)
    ensures { DeclarationFits declaration.now }
{
    match declaration {
        Declaration::Reducer(reducer) => initial_fits(&reducer.initial),
        Declaration::Procedure(procedure) => blocks_fit(&procedure.blocks),
    }
}

/// The numbers of a program fit 64 bits, since each of its tree is a number of 64 bits. It takes time in proportion to the tree.
pub(crate) fn numbers_fit(program: &Program)
    ensures { ProgramFits (tree program.now) }
{
    for declaration in &program.declarations {
        declaration_fits(declaration);
    }
}
