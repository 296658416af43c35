//! Histories as words of four letters at most, and lists of strands as text.

use super::words::digit;
use numbered_runs::step::{BookStep, Place};
use session_kit::answers::strands_text;
use std::alloc::Global;
use std::process::Abort;
use sync_fold::replay;

/// A place of one number, or `r` for the first strand's.
fn place(rt: &impl Abort, alloc: Global, byte: u8) -> Place {
    let mut place = Vec::new(alloc);
    if byte != b'r' {
        place.push(digit(byte)).expect(rt, "memory");
    }
    place
}

/// The step that a word names; none where it names none.
fn step(rt: &impl Abort, alloc: Global, word: &[u8]) -> Option<BookStep> {
    match word {
        [b'S', victim, new, thief] => {
            let victim = place(rt, alloc, *victim);
            let new = place(rt, alloc, *new);
            Some(BookStep::Split(victim, new, digit(*thief)))
        }
        [b'E', at] => Some(BookStep::End(place(rt, alloc, *at))),
        [b'L', at] => Some(BookStep::Stall(place(rt, alloc, *at))),
        [b'X', at] => Some(BookStep::Fault(place(rt, alloc, *at))),
        [b'Z', at] => Some(BookStep::Finish(place(rt, alloc, *at))),
        [b'F', left, right, worker] => {
            let left = place(rt, alloc, *left);
            let right = place(rt, alloc, *right);
            Some(BookStep::Fold(left, right, digit(*worker)))
        }
        _ => None,
    }
}

fn steps(rt: &impl Abort, alloc: Global, line: &str) -> Vec<BookStep> {
    let mut steps = Vec::new(alloc);
    for word in line.split_ascii_whitespace() {
        let step = step(rt, alloc, word.as_bytes()).expect(rt, "a step");
        steps.push(step).expect(rt, "memory");
    }
    steps
}

/// The list that a history leaves, or why it leaves none.
fn replayed_text(rt: &impl Abort, alloc: Global, steps: &[BookStep]) -> String {
    match replay(alloc, steps) {
        Ok(lines) => strands_text(alloc, &lines).expect(rt, "memory"),
        Err(error) => format!(in alloc; "{error}").expect(rt, "memory"),
    }
}

/// The list that a history of words leaves, or why it leaves none.
pub fn replayed(rt: &impl Abort, alloc: Global, line: &str) -> String {
    replayed_text(rt, alloc, &steps(rt, alloc, line))
}
