//! The tree of a program: its declarations in the order of the text.
use monoid_laws::Kind;

/// An operator between two numbers.
#[derive(Clone, Copy, PartialEq, Eq)]
pub enum Operator {
    Add,
    Subtract,
    Multiply,
    Divide,
    Remainder,
    Equal,
    Unequal,
    Less,
    AtMost,
    Greater,
    AtLeast,
}

/// An expression. A variable is its number in the procedure's pool of names; a table or a column goes by its name.
#[derive(Drop)]
pub enum Expr {
    Number(i64),
    Name(usize),
    Cell(String, Box<Expr>, String),
    Has(String, Box<Expr>),
    Limit(String),
    Sum(String, String),
    Negate(Box<Expr>),
    Binary(Operator, Box<Expr>, Box<Expr>),
}

/// What entering a procedure does with the one that enters it.
#[derive(Clone, Copy, PartialEq, Eq)]
pub enum Way {
    Call,
    Spawn,
}

/// What a statement does. Variables are numbers in the procedure's pool of names, blocks are numbers in its table of blocks.
#[derive(Drop)]
pub enum Action {
    Bind(usize, Expr),
    Enter(Option<usize>, Way, String, Vec<Expr>),
    Read(usize, String),
    Sync,
    Update(String, Vec<Expr>),
    If(Expr, usize, usize),
    Loop(usize, Expr, Expr, u32, String, Vec<Expr>),
    Return(Expr),
}

/// A statement, with the line of its first token and its number in the procedure, counted from 1 in the order of the text.
#[derive(Drop)]
pub struct Statement {
    pub line: u32,
    pub number: u32,
    pub action: Action,
}

/// A block of statements.
#[derive(Drop)]
pub struct Block {
    pub statements: Vec<Statement>,
}

/// A procedure. Its body is the first block. The pool of its variables begins with its parameters; the others follow in the order of the text.
#[derive(Drop)]
pub struct Procedure {
    pub name: String,
    pub line: u32,
    pub memo: bool,
    pub parameters: usize,
    pub names: Vec<String>,
    pub blocks: Vec<Block>,
}

/// A reducer, with the numbers of its initial value: as many for each element as an update takes, and none where it begins with the
/// identity.
#[derive(Drop)]
pub struct Reducer {
    pub name: String,
    pub line: u32,
    pub kind: Kind,
    pub initial: Vec<i64>,
}

/// A declaration.
#[derive(Drop)]
pub enum Declaration {
    Reducer(Reducer),
    Procedure(Procedure),
}

/// A program.
#[derive(Drop)]
pub struct Program {
    pub declarations: Vec<Declaration>,
}
