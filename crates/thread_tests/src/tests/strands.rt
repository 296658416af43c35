//! Strands that run at the same time: no worker gets on alone.

use super::beginning::is_answered;
use super::meeting::Meeting;
use super::programs::ONES;
use std::alloc::Global;
use std::process::Abort;
use std::sync::Wait;
use std::thread::Threads;
use test_kit::texts::{FIRST, LINES};

/// A program, how many workers and kits, and the answer. Each line that is recorded takes a kit, and so does each strand. The third worker
/// of the second row has a thief alone to steal from.
const ROWS: [(&str, usize, usize, &str); 4] = [
    (FIRST, 2, 2, "result 3\ntotal 12\n"),
    (FIRST, 3, 3, "result 3\ntotal 12\n"),
    (LINES, 2, 4, "result 131\ntotal 131\ntop 100 3\n"),
    (ONES, 4, 4, "result 120\ntotal 120\n"),
];

/// Runs a program by so many workers with so many kits. Each worker is held at its first update until all have come to one.
fn all_meet<R: Abort + Threads + Wait + Sync>(
    rt: &R,
    alloc: Global,
    text: &str,
    workers: usize,
    count: usize,
    wanted: &str,
) {
    let meeting = Meeting::of(alloc, workers).expect(rt, "memory");
    is_answered(rt, alloc, text, count, workers, &meeting, wanted);
    assert!(rt; meeting.was_held());
}

#[test]
fn strands_at_once(rt: HostRuntime) {
    for row in &ROWS {
        all_meet(&rt, rt.alloc(), row.0, row.1, row.2, row.3);
    }
}
