//! What a run goes by and doesn't change.

use crate::range::Range;
use crate::records::{Record, Revisions};
use crate::tables::TableRows;
use meaning::tree::{Expr, Program};
use std::alloc::Global;

/// Memory, a program with its revision numbers, tables, and the records that may answer memo instances.
#[derive(Clone, Copy)]
pub struct Scope<'p, 's> {
    pub alloc: Global,
    pub program: &'p Program,
    pub revisions: &'s Revisions,
    pub tables: &'s [TableRows],
    pub records: &'s [Record],
}

/// A statement that enters a procedure: where it stands, and what it enters with which arguments.
#[derive(Clone, Copy)]
pub struct Entry<'p> {
    pub here: &'p str,
    pub number: u32,
    pub callee: &'p str,
    pub arguments: &'p [Expr],
}

/// The numbers that a loop's variable has: from one expression's value on, up to below another's.
#[derive(Clone, Copy)]
pub struct Counted<'p> {
    pub x: usize,
    pub low: &'p Expr,
    pub high: &'p Expr,
}

/// The numbers that a loop's variable has, where their range is known.
#[derive(Clone, Copy)]
pub struct Turns {
    pub x: usize,
    pub range: Range,
}

/// An `if`: its number, its condition and its two blocks.
#[derive(Clone, Copy)]
pub struct Choice<'p> {
    pub number: u32,
    pub condition: &'p Expr,
    pub first: usize,
    pub second: usize,
}
