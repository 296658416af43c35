//! The revision numbers of programs, and of programs in the place of others.

use super::beginnings::{checked, program, two_tables};
use linked_program::checked::Checked;
use meaning::tree::Declaration;
use spawn_checker::{CheckError, redefine};
use std::alloc::Global;
use std::fmt::Write;
use std::process::Abort;

const THREE: &str = "reducer total : add;
proc leaf(v) { return v; }
proc main() { return 0; }
proc extra() { return 7; }";

/// These procedures on other lines, with another `main` and one more procedure.
const LONGER: &str = "reducer total :
add;
proc leaf(v) {
return v; }
proc main() { return 1; }
proc extra() {

return 7; }
proc more() { return 7; }";

/// A text in the place of a program.
fn redefined(
    rt: &impl Abort,
    alloc: Global,
    old: &Checked,
    text: &str,
) -> Result<Checked, CheckError> {
    let program = program(rt, alloc, text);
    redefine(alloc, old, program, &two_tables(rt, alloc))
}

/// Puts a procedure to the text: its name, its revision number, which goes by its name and by its own number, and whether it is
/// recorded.
fn push_procedure(
    rt: &impl Abort,
    text: &mut String,
    program: &Checked,
    number: usize,
    name: &str,
) {
    assert!(rt; program.procedure(name) == Some(number));
    assert!(rt; program.revision(name) == program.revision_at(number));
    let revision = program.revision(name).expect(rt, "a number");
    write!(text, "{name} {revision} {}; ", program.is_memo(number)).expect(rt, "memory");
}

/// The procedures of a program in order, and the least number that was never used.
pub fn numbers_text(rt: &impl Abort, alloc: Global, program: &Checked) -> String {
    let mut text = String::new(alloc);
    let mut number = 0_usize;
    for declaration in &program.program().declarations {
        if let Declaration::Procedure(procedure) = declaration {
            push_procedure(rt, &mut text, program, number, &procedure.name);
            number = number.wrapping_add(1);
        }
    }
    write!(text, "{}", program.counter()).expect(rt, "memory");
    text
}

/// The answer to a text in the place of a program: the numbers then, or why it is refused.
pub fn answer_to(rt: &impl Abort, alloc: Global, before: &Checked, text: &str) -> String {
    match redefined(rt, alloc, before, text) {
        Ok(after) => numbers_text(rt, alloc, &after),
        Err(error) => format!(in alloc; "{error}").expect(rt, "memory"),
    }
}

/// Texts in the place of `THREE`.
const ANSWERS: [(&str, &str); 3] = [
    (THREE, "leaf 0 false; main 1 false; extra 2 false; 3"),
    // `leaf` and `extra` are as they were, `main` is changed and `more` is new: 0 and 2 are kept, 3 and 4 are new.
    (
        LONGER,
        "leaf 0 false; main 3 false; extra 2 false; more 4 false; 5",
    ),
    ("", "refused E9 C7 main 0"),
];

fn is_answered(rt: &impl Abort, alloc: Global, before: &Checked, text: &str, wanted: &str) {
    assert_eq!(rt; answer_to(rt, alloc, before, text).as_str(), wanted);
}

/// Compares the answers to texts in the place of `THREE`.
fn are_answered(rt: &impl Abort, alloc: Global, before: &Checked) {
    for row in &ANSWERS {
        is_answered(rt, alloc, before, row.0, row.1);
    }
}

#[test]
fn an_unchanged_procedure_keeps_its_number(rt: HostRuntime) {
    let before = checked(&rt, rt.alloc(), THREE);
    are_answered(&rt, rt.alloc(), &before);
}
