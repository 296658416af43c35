//! Programs, lines of steps, and where these lead.

use super::playing::{Played, play};
use crate::tests::comparing::{same_text, same_text_of};
use std::alloc::Global;
use std::process::Abort;
use test_kit::texts::{
    AFFINE, FIRST, FIRST_LIST, FIRST_TWO, LAST_TWO, LOOP, LOOP_FAULT, TABLE, TWO_FAULTS, WRAPPING,
};

/// The spawned child is run by worker 0, what follows it by worker 1.
const STOLEN_ONCE: &str = "W0* P0 S10 W1* L1 W0* L0 F0@1 W0* L0";

const FOLDED_ONCE: &str =
    "run 1\nsplit root 1 by 1\nstall 1\nend root\nfold root 1 by 0\nfinish root\n";

const TWO_STEALS: &str = "W0* P0 S10 W1* P1 S21 W2* L2 W1* L1 F2@2 W2* L2 W0* L0 F0@1 W0* L0";

const TWO_FOLDS: &str =
    "run 1\nsplit root 1 by 1\nsplit 1 2 by 2\nstall 2\nend 1\nfold 1 2 by 2\nstall 1\nend root\nfold root 1 by 0\nfinish root\n";

const POPPED: &str = "W0* P0 W0* O0 W0* P0 W0* O0 W0* L0";

const INLINED: &str = "W0* I0 W0* I0 W0* L0";

const HALVES: &str = "W0* P0 S10 W0* I0 W0* L0 W1* I1 W1* L1 F0@1.1 W0* L0";

/// Programs whose reducers begin with a value.
const FIRST_FROM: &str = "reducer total : add from 100;
proc leaf(v) { update total v; return v; }
proc main() { x = spawn leaf(1); y = spawn leaf(2); update total 9; sync; return x + y; }
";

const LIST_FROM: &str = "reducer seen : list from 7, 8;
proc leaf(v) { update seen v; return v; }
proc main() { x = spawn leaf(1); y = spawn leaf(2); update seen 9; sync; return x + y; }
";

const AFFINE_FROM: &str = "reducer f : affine from 5, 1;
proc one(a, b) { update f a, b; }
proc main() { spawn one(2, 1); update f 3, 4; sync; return 0; }
";

/// A program, workers, kits and a line; what of it is refused, the answer and the history.
type Row = (
    &'static str,
    usize,
    usize,
    &'static str,
    &'static str,
    &'static str,
    &'static str,
);

const ROWS: [Row; 18] = [
    (
        FIRST_LIST,
        1,
        1,
        POPPED,
        "",
        "result 3\nseen 1 2 9\n",
        "run 1\nfinish root\n",
    ),
    (
        FIRST,
        1,
        1,
        POPPED,
        "",
        "result 3\ntotal 12\n",
        "run 1\nfinish root\n",
    ),
    (
        FIRST_LIST,
        1,
        1,
        INLINED,
        "",
        "result 3\nseen 1 2 9\n",
        "run 1\nfinish root\n",
    ),
    (
        FIRST,
        1,
        1,
        INLINED,
        "",
        "result 3\ntotal 12\n",
        "run 1\nfinish root\n",
    ),
    (
        FIRST_LIST,
        3,
        3,
        TWO_STEALS,
        "",
        "result 3\nseen 1 2 9\n",
        TWO_FOLDS,
    ),
    // The strands stand in another order than those who hold them.
    (
        FIRST_LIST,
        3,
        3,
        "W0* P0 S20 W2* P2 S12 W1* L1 W2* L2 F1@2 W1* L1 W0* L0 F0@1 W0* L0",
        "",
        "result 3\nseen 1 2 9\n",
        "run 1\nsplit root 1 by 2\nsplit 1 2 by 1\nstall 2\nend 1\nfold 1 2 by 1\nstall 1\nend root\nfold root 1 by 0\nfinish root\n",
    ),
    (
        FIRST_TWO,
        3,
        3,
        TWO_STEALS,
        "",
        "result 3\nseen 1 2\n",
        TWO_FOLDS,
    ),
    (
        LAST_TWO,
        3,
        3,
        TWO_STEALS,
        "",
        "result 3\nseen 2 9\n",
        TWO_FOLDS,
    ),
    (
        AFFINE,
        2,
        2,
        STOLEN_ONCE,
        "",
        "result 0\nf 6 7\n",
        FOLDED_ONCE,
    ),
    (
        WRAPPING,
        2,
        2,
        STOLEN_ONCE,
        "",
        "result 0\ntotal -9223372036854775808\n",
        FOLDED_ONCE,
    ),
    (TABLE, 2, 2, STOLEN_ONCE, "", "result 0\nm 2\n", FOLDED_ONCE),
    (
        LOOP,
        2,
        2,
        HALVES,
        "",
        "result 0\nseen 0 1 2 3\n",
        "run 1\nsplit root 1.1 by 1\nend root\nstall 1.1\nfold root 1.1 by 0\nfinish root\n",
    ),
    (
        LOOP_FAULT,
        2,
        2,
        HALVES,
        "",
        "fault divide by zero in main at 1\n",
        "run 1\nsplit root 1.1 by 1\nfault root\nstall 1.1\nfold root 1.1 by 0\nfault root\n",
    ),
    // In time the missing row comes first.
    (
        TWO_FAULTS,
        2,
        2,
        "W0* P0 S10 W1* L1 W0* L0 F0@1 L0",
        "",
        "fault divide by zero in bad at 1\n",
        "run 1\nsplit root 1 by 1\nfault 1\nfault root\nfold root 1 by 0\nfault root\n",
    ),
    // The only kit: nothing can be stolen.
    (
        FIRST_LIST,
        2,
        1,
        "W0* P0 S10 W0* O0 W0* P0 S10 W0* O0 W0* L0",
        "S10 refused E15;S10 refused E15;",
        "result 3\nseen 1 2 9\n",
        "run 1\nfinish root\n",
    ),
    // The initial value stands in the first strand alone.
    (
        FIRST_FROM,
        3,
        3,
        TWO_STEALS,
        "",
        "result 3\ntotal 112\n",
        TWO_FOLDS,
    ),
    (
        LIST_FROM,
        3,
        3,
        TWO_STEALS,
        "",
        "result 3\nseen 7 8 1 2 9\n",
        TWO_FOLDS,
    ),
    (
        AFFINE_FROM,
        2,
        2,
        STOLEN_ONCE,
        "",
        "result 0\nf 30 13\n",
        FOLDED_ONCE,
    ),
];

/// Compares what the line of a row led to.
fn led_so(rt: &impl Abort, played: &Played, row: Row) {
    assert!(rt; played.leads_to(row.4, row.5), "after {}", row.3);
    same_text(rt, &played.history, row.6);
}

fn leads_so(rt: &impl Abort, alloc: Global, row: Row) {
    let played = play(rt, alloc, row.0, row.1, row.2, row.3);
    led_so(rt, &played, row);
}

#[test]
fn answers_and_histories(rt: HostRuntime) {
    for row in &ROWS {
        leads_so(&rt, rt.alloc(), *row);
    }
}

/// Programs and lines, and the strands of three workers then.
const STANDING: [(&str, &str, &str); 5] = [
    (FIRST_LIST, "", "[] Held(0);"),
    (FIRST_LIST, "W0* P0 S10", "[] Held(0);[1] Held(1);"),
    (
        FIRST_LIST,
        "W0* P0 S10 W1* P1 S21 W2* L2 W1* L1",
        "[] Held(0);[1] Ended;[2] Stalled;",
    ),
    (FIRST_LIST, TWO_STEALS, "[] Finished;"),
    (LOOP, "W0* P0 S10", "[] Held(0);[1, 1] Held(1);"),
];

fn stands_so(rt: &impl Abort, alloc: Global, text: &str, line: &str, strands: &str) {
    let played = play(rt, alloc, text, 3, 3, line);
    same_text_of(rt, &played.strands, strands, line);
}

#[test]
fn strands_where_a_run_stands(rt: HostRuntime) {
    for row in &STANDING {
        stands_so(&rt, rt.alloc(), row.0, row.1, row.2);
    }
}

/// Workers, kits, a line, and what of it is refused, in the order in which the causes are looked for.
const REFUSED: [(usize, usize, &str, &str); 8] = [
    // Worker 0 has pushed nothing, and holds a strand.
    (3, 64, "S10 S00", "S10 refused E14;S00 refused E13;"),
    (
        3,
        64,
        "P7 P0 I0 O0 L0",
        "P7 refused E16;P0 refused E16;I0 refused E16;O0 refused E16;L0 refused E16;",
    ),
    (
        3,
        64,
        "W0* W0 O0 L0",
        "W0 refused E16;O0 refused E16;L0 refused E16;",
    ),
    // There is no such worker, before the worker holds a strand.
    (
        3,
        64,
        "S70 S07 F7@1",
        "S70 refused E16;S07 refused E16;F7@1 refused E16;",
    ),
    // The worker holds a strand, before there is no such strand.
    (
        3,
        64,
        "S01 F0@1 F1@1",
        "S01 refused E13;F0@1 refused E13;F1@1 refused E16;",
    ),
    // The continuation was stolen.
    (3, 64, "W0* P0 S10 W0* O0", "O0 refused E14;"),
    // The left strand has not ended, then it has, and the right one has not stalled.
    (
        3,
        64,
        "W0* P0 S10 F2@1 W0* L0 F0@1",
        "F2@1 refused E16;F0@1 refused E16;",
    ),
    // There is nothing to take, before no kit is free.
    (2, 1, "S10 W0* P0 S10", "S10 refused E14;S10 refused E15;"),
];

fn is_refused_so(
    rt: &impl Abort,
    alloc: Global,
    workers: usize,
    count: usize,
    line: &str,
    refused: &str,
) {
    let played = play(rt, alloc, FIRST_LIST, workers, count, line);
    same_text_of(rt, &played.refused, refused, line);
}

#[test]
fn step_refusals(rt: HostRuntime) {
    for row in &REFUSED {
        is_refused_so(&rt, rt.alloc(), row.0, row.1, row.2, row.3);
    }
}
