//! Procedures that are put into programs, which are printed then, and read again.

use meaning::tree::Program;
use printing_theory::{print, print_and_parse};
use procedure_parser::{TextError, parse, parse_define};
use std::alloc::Global;

fn is_printed(alloc: Global, program: &Program, wanted: &str) -> Result<bool, TextError> {
    let printed = print(alloc, program)?;
    Ok(printed.as_slice() == wanted.as_bytes())
}

/// Whether a program is printed so, and read from that as a program that is printed so again.
fn prints_as(alloc: Global, program: &Program, wanted: &str) -> Result<bool, TextError> {
    if !is_printed(alloc, program, wanted)? {
        return Ok(false);
    }
    let again = print_and_parse(alloc, program)?;
    is_printed(alloc, &again, wanted)
}

/// A program, two definitions one after the other, and what they make of it.
const DEFINED: [(&str, &str, &str, &str); 3] = [
    // One in its place, a new one last, and a second one behind the first.
    (
        "proc a() { return 1; }\nreducer r : mul;\nproc main() { return 2; }\n",
        "proc main() { return 2; }\n",
        "proc c() { return 3; }\nmemo proc a() { return 4; }\nproc a() { return 5; }\nproc c() { return 6; }\n",
        "memo proc a ( ) {\nreturn 4 ;\n}\nproc a ( ) {\nreturn 5 ;\n}\nreducer r : mul ;\nproc main ( ) {\nreturn 2 ;\n}\nproc c ( ) {\nreturn 3 ;\n}\nproc c ( ) {\nreturn 6 ;\n}\n",
    ),
    (
        "reducer steps : add;\nmemo proc down(n) { update steps 1; if n > 0 { call down(n - 1); } return n; }\nproc main() { v = call down(60); return v; }\n",
        "proc b() { v = call down(60); return v; }\nproc a() { v = call b(); return v; }\nproc main() { v = call a(); return v; }\n",
        "proc c() { v = call down(60); return v; }\nproc b() { v = call c(); return v; }\n",
        "reducer steps : add ;\nmemo proc down ( n ) {\nupdate steps 1 ;\nif ( n > 0 ) {\ncall down ( ( n - 1 ) ) ;\n}\nreturn n ;\n}\nproc main ( ) {\nv = call a ( ) ;\nreturn v ;\n}\nproc b ( ) {\nv = call c ( ) ;\nreturn v ;\n}\nproc a ( ) {\nv = call b ( ) ;\nreturn v ;\n}\nproc c ( ) {\nv = call down ( 60 ) ;\nreturn v ;\n}\n",
    ),
    // Of two of one name the last is replaced, and a second one comes behind it.
    (
        "proc f() { }\nproc f() { }\nproc p() { }",
        "proc f(v) { }\nproc\nf(v, w) { }",
        "proc p(a) { }",
        "proc f ( ) {\n}\nproc f ( v ) {\n}\nproc f ( v , w ) {\n}\nproc p ( a ) {\n}\n",
    ),
];

/// Whether a program with two definitions is printed so.
fn defines_and_prints(
    alloc: Global,
    old: &str,
    first: &str,
    second: &str,
    wanted: &str,
) -> Result<bool, TextError> {
    let before = parse(alloc, old.as_bytes())?;
    let between = parse_define(alloc, first.as_bytes(), &before)?;
    let after = parse_define(alloc, second.as_bytes(), &between)?;
    prints_as(alloc, &after, wanted)
}

fn is_so(alloc: Global, old: &str, first: &str, second: &str, wanted: &str) -> bool {
    matches!(
        defines_and_prints(alloc, old, first, second, wanted),
        Ok(true)
    )
}

#[test]
fn definitions(rt: HostRuntime) {
    for row in &DEFINED {
        assert!(rt; is_so(rt.alloc(), row.0, row.1, row.2, row.3));
    }
}
