//! Answers as text, and those of the plain slow program.

use meaning::FaultKind;
use meaning::tree::{Declaration, Program};
use monoid_laws::Val;
use positions::answer::RunAnswer;
use serial_oracle::{Answer, Row, TableRows, from_scratch};
use std::alloc::{AllocError, Global};
use std::process::Abort;

/// The rows of the sales.
const CELLS: [[i64; 3]; 3] = [[1, 2, 5], [2, 3, 7], [3, 1, 100]];

/// The name of the procedure of that number.
fn procedure_name(program: &Program, number: usize) -> &str {
    let mut left = number;
    for declaration in &program.declarations {
        if let Declaration::Procedure(procedure) = declaration {
            if left == 0 {
                return &procedure.name;
            }
            left -= 1;
        }
    }
    ""
}

/// The result and the reducers' values.
fn finished_text(alloc: Global, value: i64, values: &[Val]) -> Result<String, AllocError> {
    format!(in alloc; "{value} {values:?}")
}

/// A fault: its kind, its procedure and its statement.
fn fault_text(
    alloc: Global,
    kind: FaultKind,
    procedure: &str,
    statement: u32,
) -> Result<String, AllocError> {
    format!(in alloc; "{kind:?} in {procedure} at {statement}")
}

/// The answer of a run, if it has ended.
pub fn answer_text(
    rt: &impl Abort,
    alloc: Global,
    program: &Program,
    answer: &RunAnswer,
) -> String {
    let text = match answer {
        RunAnswer::Finished { result, values, .. } => finished_text(alloc, *result, values),
        RunAnswer::Fault(fault) => {
            let procedure = procedure_name(program, fault.procedure);
            fault_text(alloc, fault.kind, procedure, fault.statement)
        }
        _ => panic!(rt; "no answer"),
    };
    text.expect(rt, "memory")
}

fn row(rt: &impl Abort, alloc: Global, cells: [i64; 3]) -> Row {
    let [number, quantity, price] = cells;
    let values = vec![in alloc; quantity, price].expect(rt, "memory");
    Row { number, values }
}

fn text(rt: &impl Abort, alloc: Global, text: &str) -> String {
    String::from_str(alloc, text).expect(rt, "memory")
}

fn sales(rt: &impl Abort, alloc: Global) -> TableRows {
    let mut rows = Vec::new(alloc);
    for cells in CELLS {
        rows.push(row(rt, alloc, cells)).expect(rt, "memory");
    }
    let columns = vec![in alloc; text(rt, alloc, "qty"), text(rt, alloc, "price")];
    TableRows {
        name: text(rt, alloc, "sales"),
        columns: columns.expect(rt, "memory"),
        rows,
    }
}

/// The text of an answer of the plain slow program.
fn text_of(alloc: Global, answer: &Answer<'_>) -> Result<String, AllocError> {
    match answer {
        Answer::Finished(value, values) => finished_text(alloc, *value, values),
        Answer::Faulted(fault) => fault_text(alloc, fault.kind, fault.procedure, fault.statement),
    }
}

/// The answer of the plain slow program, on the sales.
pub fn slow_text(rt: &impl Abort, alloc: Global, program: &Program) -> String {
    let sales = sales(rt, alloc);
    match &from_scratch(alloc, program, &[sales]) {
        Ok(answer) => text_of(alloc, answer).expect(rt, "memory"),
        Err(_) => panic!(rt; "memory"),
    }
}
