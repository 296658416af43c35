//! Programs on strands by given steps: each way of a spawned child, and continuations that are stolen.
ghost use Rattle.std.specs.Prelude.{◌≡◌, []};

use super::driving::{Child, Input};
use super::owner::{Tried, try_program};
use super::thefts::{Row, rows_answer, run};
use std::alloc::Global;
use std::process::Abort;

/// Programs that end with a value. The values stand in the order of the text, however often continuations are stolen.
const ENDING: [Row; 10] = [
    (
        "proc main() { if 1 { if 0 { return 1; } else { return 2; } } return 3; }",
        1,
        "2 []",
    ),
    (
        "proc f(v) { if v < 2 { return v; } x = spawn f(v - 1); y = call f(v - 2); sync; return x + y; } proc main() { x = call f(9); return x; }",
        1,
        "34 []",
    ),
    (
        "reducer total : add; reducer seen : list; proc main() { update total 3; update seen 5; update total 4; update seen 6; x = read total; return x; }",
        1,
        "7 [Int(7), List([5, 6])]",
    ),
    (
        "reducer f : affine; proc one(a, b) { update f a, b; } proc main() { spawn one(2, 1); update f 3, 4; sync; return 0; }",
        1,
        "0 [Pair(6, 7)]",
    ),
    (
        "reducer total : add; reducer seen : list; proc note(v) { update total v; update seen v; } proc main() { cilk_for i in 0 .. 5 grain 2 : note(i); return 0; }",
        1,
        "0 [Int(10), List([0, 1, 2, 3, 4])]",
    ),
    (
        "reducer top : argmax; memo proc line(r) { v = sales[r].qty * sales[r].price; update top v, r; return v; } proc main() { cilk_for r in 1 .. limit sales : line(r); return 0; }",
        1,
        "0 [Arg(Some((100, 3)))]",
    ),
    (
        "reducer seen : list; proc leaf(v) { update seen v; update seen v + 1; return v * v; } proc main() { update seen 7; x = spawn leaf(2); y = spawn leaf(5); update seen 9; sync; update seen 8; return 100 * x + y; }",
        3,
        "425 [List([7, 2, 3, 5, 6, 9, 8])]",
    ),
    (
        "reducer seen : list; proc f(v) { update seen v; if v < 2 { return v; } x = spawn f(v - 1); y = call f(v - 2); sync; update seen 10 * v; return x + y; } proc main() { x = call f(4); update seen 7; return 10 * x; }",
        3,
        "30 [List([4, 3, 2, 1, 0, 20, 1, 30, 2, 1, 0, 20, 40, 7])]",
    ),
    (
        "reducer seen : list; proc one(i) { update seen i; } proc main() { cilk_for i in 0 .. 4 : one(i); return 0; }",
        3,
        "0 [List([0, 1, 2, 3])]",
    ),
    (
        "reducer early : first 2; reducer late : last 2; reducer seen : list; proc leaf(v) { update early v; update late v; update seen v; return v; } proc main() { x = spawn leaf(1); y = spawn leaf(2); z = spawn leaf(3); update seen 9; sync; return 100 * x + 10 * y + z; }",
        3,
        "123 [List([1, 2]), List([2, 3]), List([1, 2, 3, 9])]",
    ),
];

/// Programs that end with a fault: the first of the text, also where a strand behind it comes to one before.
const FAULTY: [Row; 8] = [
    (
        "proc deep(v) { x = v; call deep(x); return 0; } proc main() { call deep(1); return 0; }",
        1,
        "TooDeep in deep at 2",
    ),
    (
        "reducer m : table 3 unit 0 [0, 1, 2, 1, 1, 2, 2, 1, 2]; proc main() { update m 1; update m 3; return 0; }",
        1,
        "BadElement in main at 2",
    ),
    (
        "proc bad(n) { return 1 / n; } proc main() { spawn bad(0); x = sales[9].qty; sync; return x; }",
        2,
        "DivideByZero in bad at 1",
    ),
    (
        "proc bad(n) { return 1 / n; } proc main() { spawn bad(1); x = sales[9].qty; sync; return x; }",
        2,
        "MissingRow in main at 2",
    ),
    (
        "proc bad(n) { m = n + n; return 1 / m; } proc main() { spawn bad(0); x = sales[3].qty; sync; return x; }",
        2,
        "DivideByZero in bad at 2",
    ),
    (
        "proc bad(n) { return 1 / n; } proc worse(n) { m = n; return 6 % m; } proc main() { spawn bad(0); spawn worse(0); x = sales[9].qty; sync; return x; }",
        3,
        "DivideByZero in bad at 1",
    ),
    (
        "proc bad(n) { return 1 / n; } proc worse(n) { m = n; return 6 % m; } proc main() { spawn bad(1); spawn worse(0); x = sales[9].qty; sync; return x; }",
        3,
        "DivideByZero in worse at 2",
    ),
    (
        "proc bad(n) { return 1 / n; } proc worse(n) { m = n; return 6 % m; } proc main() { spawn bad(1); spawn worse(1); x = sales[9].qty; sync; return x; }",
        3,
        "MissingRow in main at 3",
    ),
];

#[test]
fn programs_on_strands(rt: HostRuntime) {
    rows_answer(&rt, rt.alloc(), &ENDING);
    rows_answer(&rt, rt.alloc(), &FAULTY);
}

/// A hundred iterations, each of which calls two instances, and two more calls.
const MANY: &str = "reducer total : add; reducer rows : last 2;
proc even(v) { if v % 2 == 0 { return 1; } return 0; }
proc leaf(v) { e = call even(v); sync; if e { update total v + sales[2].price; return v; } update rows v; return 0 - v; }
proc main() { cilk_for i in 0 .. 100 grain 100 : leaf(i); x = call leaf(4); y = call leaf(5); return 10 * x + y; }";

/// What it ends with.
const OF_MANY: &str = "35 [Int(2811), List([99, 5])]";

/// The program is done in ten steps by one strand, which does in one go what it can.
pub fn is_done_in_one_go(rt: &impl Abort, alloc: Global, input: Input<'_>)
    requires { input.records.now ≡ [] }
{
    let ran = run(rt, alloc, input, 0, Child::Ahead);
    assert!(rt; ran.answer.as_str() == OF_MANY && ran.steps <= 10);
}

/// Main's loop, its share of it and the end of main are done by themselves, and what is behind each of them.
#[test]
fn most_steps_are_done_in_one_go(rt: HostRuntime) {
    try_program(&rt, rt.alloc(), MANY, Tried::InOneGo);
}
