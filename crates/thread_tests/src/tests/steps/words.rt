//! Lines of steps.
//!
//! A line has a word for each step, with the worker's number: `W0` is a small step, `W0*` a hundred of them, of which those past
//! a pause are passed over, `P0` a push, `I0` runs the child as a call, `O0` pops, `L0` lays the strand down, `S10` steals for
//! worker 1 from worker 0, and `F0@1.1` folds at the place 1.1.

use std::alloc::{AllocError, Global};
use std::process::Abort;
use worker_core::{Place, Step};

/// The number of a digit.
pub fn digit(byte: u8) -> usize {
    usize::from(byte.wrapping_sub(b'0'))
}

fn place(alloc: Global, text: &[u8]) -> Result<Place, AllocError> {
    let mut place = Vec::new(alloc);
    for byte in text {
        if *byte != b'.' {
            place.push(digit(*byte))?;
        }
    }
    Ok(place)
}

/// The step that a word names; none where it names none.
pub fn step(rt: &impl Abort, alloc: Global, word: &[u8]) -> Option<Step> {
    match word {
        [b'W', worker] => Some(Step::Work(digit(*worker))),
        [b'P', worker] => Some(Step::Push(digit(*worker))),
        [b'I', worker] => Some(Step::Inline(digit(*worker))),
        [b'O', worker] => Some(Step::Pop(digit(*worker))),
        [b'L', worker] => Some(Step::Stall(digit(*worker))),
        [b'S', thief, victim] => Some(Step::Steal(digit(*thief), digit(*victim))),
        [b'F', worker, b'@', rest @ ..] => {
            let place = place(alloc, rest).expect(rt, "memory");
            Some(Step::Fold(digit(*worker), place))
        }
        _ => None,
    }
}

/// Puts the steps of a word at the end.
fn push_steps(rt: &impl Abort, alloc: Global, steps: &mut Vec<Step>, word: &[u8]) {
    if let [b'W', worker, b'*'] = word {
        for _ in 0..100 {
            steps.push(Step::Work(digit(*worker))).expect(rt, "memory");
        }
        return;
    }
    let step = step(rt, alloc, word).expect(rt, "a step");
    steps.push(step).expect(rt, "memory");
}

/// The steps of a line.
pub fn steps(rt: &impl Abort, alloc: Global, line: &str) -> Vec<Step> {
    let mut steps = Vec::new(alloc);
    for word in line.split_ascii_whitespace() {
        push_steps(rt, alloc, &mut steps, word.as_bytes());
    }
    steps
}
