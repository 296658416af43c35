//! The one owner of a program, its tables and its records: what their dropping takes the prover is paid for each owner.

use super::driving::Input;
use super::kits::all_go_unrecorded;
use super::statements::is_done_in_one_go;
use super::thefts::{Row, all_answer};
use rerun_records::records::Records;
use std::alloc::Global;
use std::process::Abort;
use test_kit::beginnings::{checked, tables};
use test_kit::texts::SALES;

/// What is tried of a program: that it gives the answer of a row, with any thefts; that it is done in one go; or that it is answered
/// where it is given no kit at any calls.
#[derive(Clone, Copy)]
pub enum Tried<'a> {
    Row(&'a Row),
    InOneGo,
    Unrecorded,
}

/// Tries this of the program that a text is, on the sales and over no records.
pub fn try_program(rt: &impl Abort, alloc: Global, text: &str, tried: Tried<'_>) {
    let tables = tables(alloc, SALES).expect(rt, "tables");
    let program = checked(alloc, text, &tables).expect(rt, "a program");
    let records = Records::new(alloc);
    let input = Input {
        program: &program,
        tables: &tables,
        records: &records,
    };
    match tried {
        Tried::Row(row) => all_answer(rt, alloc, input, row),
        Tried::InOneGo => is_done_in_one_go(rt, alloc, input),
        Tried::Unrecorded => all_go_unrecorded(rt, alloc, input),
    }
}
