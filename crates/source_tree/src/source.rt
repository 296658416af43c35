//! The source tree: a program as it is written, with names in place and the line of each statement.

ghost use Rattle.std.specs.Prelude.{◌≡◌};
ghost use Rattle.source_tree.specs.Source.{phrase, depth, stmt};
ghost use Rattle.source_tree.specs.Lowering.{line_of_stmt};

use meaning::tree::{Operator, Way};
use monoid_laws::Kind;

/// An expression.
#[derive(Drop)]
pub enum Expr {
    Number(i64),
    Name(String),
    Cell(String, Box<Expr>, String),
    Has(String, Box<Expr>),
    Limit(String),
    Sum(String, String),
    Negate(Box<Expr>),
    Binary(Operator, Box<Expr>, Box<Expr>),
}

/// An expression that knows how many levels it has.
#[derive(Drop)]
pub struct Measured {
    pub expr: Expr,
    pub levels: usize,
    ghost levels_are: { levels ≡ depth (phrase expr) },
}

/// A statement, with the line of its first token before what it says.
#[derive(Drop)]
pub enum Statement {
    Bind(u32, String, Expr),
    Enter(u32, Option<String>, Way, String, Vec<Expr>),
    Read(u32, String, String),
    Sync(u32),
    Update(u32, String, Vec<Expr>),
    If(u32, Expr, Vec<Statement>, Vec<Statement>),
    /// Its variable, the two ends of its range, its grain, the procedure of its iterations and the arguments.
    Loop(u32, String, Expr, Expr, u32, String, Vec<Expr>),
    Return(u32, Expr),
}

/// The line of a statement.
pub(crate) fn line_of(statement: &Statement) -> u32
    ensures { result ≡ line_of_stmt (stmt statement.now) }
{
    match statement {
        Statement::Bind(line, ..) => *line,
        Statement::Enter(line, ..) => *line,
        Statement::Read(line, ..) => *line,
        Statement::Sync(line) => *line,
        Statement::Update(line, ..) => *line,
        Statement::If(line, ..) => *line,
        Statement::Loop(line, ..) => *line,
        Statement::Return(line, ..) => *line,
    }
}

/// A reducer, with the line of its first token and the numbers of its initial value.
#[derive(Drop)]
pub struct Reducer {
    pub line: u32,
    pub name: String,
    pub kind: Kind,
    pub initial: Vec<i64>,
}

/// A procedure, with the line of its first token.
#[derive(Drop)]
pub struct Procedure {
    pub line: u32,
    pub memo: bool,
    pub name: String,
    pub parameters: Vec<String>,
    pub body: Vec<Statement>,
}

/// A declaration.
#[derive(Drop)]
pub enum Declaration {
    Reducer(Reducer),
    Procedure(Procedure),
}
