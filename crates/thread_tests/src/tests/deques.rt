//! What goes through the deques.

use super::beginning::is_answered;
use super::counting::{Held, PushBesideSteal};
use super::programs::{LEVELS, LEVELS_TO_A_FAULT, NESTED};

/// How many continuations a deque holds at most.
const MOST: i64 = 6;

/// Programs of 255 loops, whose halves leave eight and sixteen continuations each, and their answers.
const ROWS: [(&str, &str); 2] = [
    (LEVELS, "result 65025\ntotal 65025\n"),
    (LEVELS_TO_A_FAULT, "fault divide by zero in level at 4\n"),
];

/// The deque of one worker holds the oldest ones; the other children are called.
#[test]
fn many_continuations(rt: HostRuntime) {
    for row in &ROWS {
        let gate = Held::new();
        is_answered(&rt, rt.alloc(), row.0, 4, 1, &gate, row.1);
        assert!(&rt; gate.most() == MOST);
    }
}

/// The second push takes place while the thief has the lock.
#[test]
fn push_beside_a_steal(rt: HostRuntime) {
    let gate = PushBesideSteal::new();
    is_answered(&rt, rt.alloc(), NESTED, 2, 2, &gate, "result 3\ntotal 3\n");
    assert!(&rt; gate.have_met());
}
