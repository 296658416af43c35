//! What histories leave, or the first step that isn't allowed; and what is said where a book refuses a step.

use super::histories::replayed;
use crate::tests::comparing::same_text;
use std::alloc::Global;
use std::process::Abort;
use sync_fold::BookError;

/// Histories that are legal, and what they leave.
const LEGAL: [(&str, &str); 8] = [
    ("", "[] Held(0);"),
    ("Sr11", "[] Held(0);[1] Held(1);"),
    (
        "Sr11 S122 Sr33",
        "[] Held(0);[3] Held(3);[1] Held(1);[2] Held(2);",
    ),
    ("Sr11 Er L1 Fr11", "[] Held(1);"),
    ("Sr11 X1 Xr", "[] Faulted;[1] Faulted;"),
    ("Sr11 Xr X1 Fr12 Xr", "[] Faulted;"),
    ("Sr11 S122 L2 E1 F123 L1", "[] Held(0);[1] Stalled;"),
    ("Sr11 S122 L2 E1 F122 L1 Er Fr10 Zr", "[] Finished;"),
];

/// Histories with a step that isn't allowed, and its number from 0.
const BAD: [(&str, &str); 28] = [
    // A split: there is no such strand; its worker holds one; its place is the first strand's, or was split off already, and from whichever.
    ("S312", "step 0 is not allowed"),
    ("Sr10", "step 0 is not allowed"),
    ("Srr1", "step 0 is not allowed"),
    ("Sr11 Sr21", "step 1 is not allowed"),
    ("Sr11 Sr12", "step 1 is not allowed"),
    ("Sr11 S112", "step 1 is not allowed"),
    // Nobody holds the strand, it has ended by a fault, or its place was folded away.
    ("Sr11 Er Sr23", "step 2 is not allowed"),
    ("Sr11 Xr X1 Sr23", "step 3 is not allowed"),
    ("Sr11 Er L1 Fr12 Sr13", "step 4 is not allowed"),
    ("Sr11 Er L1 Fr11 Sr10", "step 4 is not allowed"),
    // A strand is laid down: it isn't there; it was laid already; the first one has no one to wait for; who has finished isn't alone.
    ("E1", "step 0 is not allowed"),
    ("Sr11 Er Er", "step 2 is not allowed"),
    ("Sr11 L1 L1", "step 2 is not allowed"),
    ("Lr", "step 0 is not allowed"),
    ("Sr11 Zr", "step 1 is not allowed"),
    ("Sr11 Er Zr", "step 2 is not allowed"),
    ("Zr Zr", "step 1 is not allowed"),
    // A fold: they aren't there; the right one stands to the left, or is the same; another stands between them.
    ("Fr11", "step 0 is not allowed"),
    ("Sr11 F1r2", "step 1 is not allowed"),
    ("Sr11 Frr2", "step 1 is not allowed"),
    ("Sr11 Sr22 Er L1 Fr11", "step 4 is not allowed"),
    // Workers hold both, or one of them; both have ended, or stalled; the worker holds a strand.
    ("Sr11 Fr12", "step 1 is not allowed"),
    ("Sr11 Er Fr12", "step 2 is not allowed"),
    ("Sr11 L1 Fr12", "step 2 is not allowed"),
    ("Sr11 Xr Fr12", "step 2 is not allowed"),
    ("Sr11 Er E1 Fr11", "step 3 is not allowed"),
    ("Sr11 S122 L2 L1 F123", "step 4 is not allowed"),
    ("Sr11 S122 L2 E1 F120", "step 4 is not allowed"),
];

/// Compares what histories come to.
fn come_to(rt: &impl Abort, alloc: Global, rows: &[(&'static str, &'static str)]) {
    for row in rows {
        same_text(rt, &replayed(rt, alloc, row.0), row.1);
    }
}

#[test]
fn histories_are_replayed(rt: HostRuntime) {
    come_to(&rt, rt.alloc(), &LEGAL);
    come_to(&rt, rt.alloc(), &BAD);
}

const SAID: [(BookError, &str); 5] = [
    (BookError::NoMemory, "out of memory"),
    (BookError::NotNeighbour, "refused E10"),
    (BookError::AlreadyLaid, "refused E11"),
    (BookError::NoStrand, "refused E12"),
    (BookError::NotThere, "refused E16"),
];

fn says(rt: &impl Abort, alloc: Global, error: BookError, wanted: &str) {
    let said = format!(in alloc; "{error}").expect(rt, "memory");
    same_text(rt, &said, wanted);
}

#[test]
fn what_a_book_says(rt: HostRuntime) {
    for row in &SAID {
        says(&rt, rt.alloc(), row.0, row.1);
    }
}
