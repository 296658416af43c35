//! The code of procedures: variables are slots; procedures, reducers, tables and columns are numbers; blocks are those of the tree.

use meaning::tree::{Operator, Way};

/// Two cells of one row: the number of its table, the slot in which the row's number stands, and the numbers of two columns.
#[derive(Clone, Copy)]
pub struct RowCells {
    pub table: usize,
    pub slot: usize,
    pub first: usize,
    pub second: usize,
}

/// An expression over an instance's slots. The last five are forms without boxes of those before them, and linking makes them
/// wherever it can: a cell whose row stands in a slot, and an operator on slots and numbers or on two cells of one row.
#[derive(Drop)]
pub enum Expression {
    Number(i64),
    Slot(usize),
    Cell(usize, Box<Expression>, usize),
    Has(usize, Box<Expression>),
    Limit(usize),
    Sum(usize, usize),
    Negate(Box<Expression>),
    Binary(Operator, Box<Expression>, Box<Expression>),
    SlotCell(usize, usize, usize),
    Slots(Operator, usize, usize),
    SlotAndNumber(Operator, usize, i64),
    NumberAndSlot(Operator, i64, usize),
    OnRow(Operator, RowCells),
}

/// What a statement does.
#[derive(Drop)]
pub enum Operation {
    Bind(usize, Expression),
    Enter(Option<usize>, Way, usize, Vec<Expression>),
    Read(usize, usize),
    Sync,
    Update(usize, Vec<Expression>),
    If(Expression, usize, usize),
    Loop(usize, Expression, Expression, u32, usize, Vec<Expression>),
    Return(Expression),
}

/// What is done with a statement's value: it goes into a slot, one of two blocks is chosen by it, it is given back, or a reducer that takes
/// one number is updated by it.
#[derive(Clone, Copy)]
pub enum Target {
    Slot(usize),
    Blocks(usize, usize),
    Back,
    Update(usize),
}

/// What a chain begins with: a slot, a cell whose row stands in a slot, or an operator on two cells of one row.
#[derive(Clone, Copy)]
pub enum Start {
    Slot(usize),
    Cell(usize, usize, usize),
    OnRow(Operator, RowCells),
}

/// An operator on a value and a slot or a number, which stands to the right of the value or to its left. Of arithmetic with a number to the
/// right, which is most of them, each operator has one by itself.
#[derive(Clone, Copy)]
pub enum Link {
    Plus(i64),
    Minus(i64),
    Times(i64),
    Over(i64),
    Modulo(i64),
    NumberRight(Operator, i64),
    NumberLeft(Operator, i64),
    SlotRight(Operator, usize),
    SlotLeft(Operator, usize),
}

/// Operators within one another of which each has a slot or a number beside the others, from the innermost one on.
#[derive(Drop)]
pub struct Chain {
    pub start: Start,
    pub links: Vec<Link>,
}

/// A short form of a statement that is done often, over slots, numbers and cells whose row stands in a slot: an update has as many
/// numbers as its reducer takes. Linking makes one wherever it can.
#[derive(Drop)]
pub enum ShortForm {
    Other,
    UpdateSlot(usize, usize),
    UpdateNumber(usize, i64),
    UpdateSlots(usize, usize, usize),
    UpdateSlotAndNumber(usize, usize, i64),
    ReturnSlot(usize),
    ReturnNumber(i64),
    Slots(Target, Operator, usize, usize),
    SlotAndNumber(Target, Operator, usize, i64),
    NumberAndSlot(Target, Operator, i64, usize),
    OnRow(Target, Operator, RowCells),
    Cell(Target, usize, usize, usize),
    Chain(Target, Chain),
}

/// A statement, with its number in the procedure, and its short form.
#[derive(Drop)]
pub struct Instruction {
    pub number: u32,
    pub short: ShortForm,
    pub operation: Operation,
}

/// A block of statements.
#[derive(Drop)]
pub struct CodeBlock {
    pub instructions: Vec<Instruction>,
}

/// What may be tried with the instances of a procedure. Nothing is claimed of it: who heeds a hint and who doesn't come to the same.
#[derive(Clone, Copy)]
pub struct Hints {
    /// No statement spawns an instance, loops or reads a reducer, so an instance may be done beside the strand.
    pub beside: bool,
    /// Each statement calls no other procedure and reads nothing, so an instance's value may be found by recursion.
    pub own: bool,
    /// Each statement is done by the instance itself, or calls a few levels of such instances that aren't recorded, so iterations may be
    /// recorded in one go.
    pub alone: bool,
    /// The same, where a statement may also call an instance whose value is found by recursion. That may take long, so such iterations are
    /// recorded in one go only where no other worker could take any of them.
    pub found: bool,
    /// No statement of the body loops, spawns an instance or reads a reducer, and what it calls does all by itself, so an instance may go
    /// back without standing on the strand.
    pub back: bool,
}

// Nothing may be tried.
pub(crate) const NO_HINTS: Hints = Hints {
    beside: false,
    own: false,
    alone: false,
    found: false,
    back: false,
};

/// A procedure's code: whether its instances are recorded, how many slots an instance has, its parameters first, its blocks, of which the
/// first is its body, and what may be tried with its instances.
#[derive(Drop)]
pub struct Code {
    pub memo: bool,
    pub slots: usize,
    pub blocks: Vec<CodeBlock>,
    pub hints: Hints,
}
