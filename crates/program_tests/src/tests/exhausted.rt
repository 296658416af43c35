//! Revision numbers up to the last one, from a checked program that is built by hand: no text gets that far.
ghost use Rattle.std.specs.Prelude.{◌≡◌, ◌<◌, [], ◌∷◌, map, string_bytes};
ghost use Rattle.meaning.specs.Elision.{main};
ghost use Rattle.meaning.specs.TreeView.{tree};
ghost use Rattle.linked_program.specs.Declarations.{IsClean};
ghost use Rattle.linked_program.specs.Procedures.{procedures};
ghost use Rattle.linked_program.specs.Linked.{main_number};
ghost use Rattle.linked_program.specs.Checked.{numbers_in};

use super::{defines, revisions};
use linked_program::checked::Checked;
use linked_program::initial::initials;
use linked_program::linking::{codes, kinds};
use meaning::tree::{Block, Declaration, Procedure, Program};
use std::alloc::Global;
use std::process::Abort;

fn main_name(rt: &impl Abort, alloc: Global) -> String
    ensures { string_bytes result ≡ main }
{
    String::from_str(alloc, "main").expect(rt, "memory")
}

/// `proc main() { }`.
fn main_alone(rt: &impl Abort, alloc: Global) -> Program
    ensures clean { IsClean [] result }
    ensures called { map (λ p. p.called) (procedures (tree result)) ≡ main ∷ [] }
    ensures number { main_number (tree result) ≡ 0 }
{
    let body = Block {
        statements: Vec::new(alloc),
    };
    let procedure = Procedure {
        name: main_name(rt, alloc),
        line: 1,
        memo: false,
        parameters: 0,
        names: Vec::new(alloc),
        blocks: vec![in alloc; body].expect(rt, "memory"),
    };
    let declarations = vec![in alloc; Declaration::Procedure(procedure)].expect(rt, "memory");
    Program { declarations }
}

fn number_of_main(rt: &impl Abort, alloc: Global) -> Vec<(String, u64)>
    ensures { numbers_in result.items ≡ (main, 0) ∷ [] }
{
    vec![in alloc; (main_name(rt, alloc), 0)].expect(rt, "memory")
}

/// That program, checked, whose `main` has the revision number 0, and this as the least that was never used.
fn before(rt: &impl Abort, alloc: Global, counter: u64) -> Checked
    requires { 0 < counter }
{
    let program = main_alone(rt, alloc);
    let codes = codes(alloc, &program.declarations, &[]).expect(rt, "memory");
    let kinds = kinds(alloc, &program.declarations).expect(rt, "memory");
    let initials = initials(alloc, &program.declarations).expect(rt, "memory");
    let numbers = number_of_main(rt, alloc);
    Checked::new(
        program,
        Vec::new(alloc),
        codes,
        kinds,
        initials,
        numbers,
        counter,
    )
}

/// The answers to a text in the place of a program, and as a definition.
fn answers(rt: &impl Abort, alloc: Global, old: &Checked, text: &str) -> String {
    let mut answers = revisions::answer_to(rt, alloc, old, text);
    answers.push_str(" and ").expect(rt, "memory");
    let defined = defines::answer_to(rt, alloc, old, text);
    answers.push_str(&defined).expect(rt, "memory");
    answers
}

/// The least number that was never used, a text, and what it is answered. Where no number is left the rules come before the numbers,
/// and where no procedure is changed no number is needed.
const ANSWERS: [(u64, &str, &str); 4] = [
    (
        u64::MAX,
        "proc main() { return 1; }",
        "refused E18 and refused E18",
    ),
    (
        u64::MAX,
        "proc main(x) { }",
        "refused E9 C7 main 1 and refused E9 C7 main 1",
    ),
    (
        u64::MAX,
        "\n\nproc main() { }",
        "main 0 false; 18446744073709551615 and main 0 false; 18446744073709551615",
    ),
    // The last number is given.
    (
        u64::MAX - 1,
        "proc main() { return 1; }",
        "main 18446744073709551614 false; 18446744073709551615 and main 18446744073709551614 false; 18446744073709551615",
    ),
];

/// The answers behind that program.
fn answers_before(rt: &impl Abort, alloc: Global, counter: u64, text: &str) -> String {
    let old = before(rt, alloc, counter.max(1));
    answers(rt, alloc, &old, text)
}

fn are_answered(rt: &impl Abort, alloc: Global, counter: u64, text: &str, wanted: &str) {
    let found = answers_before(rt, alloc, counter, text);
    assert_eq!(rt; found.as_str(), wanted);
}

#[test]
fn numbers_up_to_the_last(rt: HostRuntime) {
    for row in &ANSWERS {
        are_answered(&rt, rt.alloc(), row.0, row.1, row.2);
    }
}
