//! Records of memo instances, and the revision numbers of procedures.

use monoid_laws::Val;

/// What was read of a table, with what it held.
#[derive(Drop)]
pub enum Reading {
    Cell(String, i64, String, i64),
    Has(String, i64, bool),
    Limit(String, i64),
    Sum(String, String, i64),
}

/// A procedure's revision number.
#[derive(Drop)]
pub struct Revision {
    pub procedure: String,
    pub number: u64,
}

/// The revision numbers of a program's procedures, and the least number that was never used.
#[derive(Drop)]
pub struct Revisions {
    pub numbers: Vec<Revision>,
    pub counter: u64,
}

/// What a memo instance did: its value, what it made of the identities, what it read, the procedures that it entered, and how many instances were nested.
#[derive(Drop)]
pub struct Record {
    pub of: String,
    pub args: Vec<i64>,
    pub value: i64,
    pub contribution: Vec<Val>,
    pub read: Vec<Reading>,
    pub revisions: Vec<Revision>,
    pub height: u32,
}
