//! Who does a session's runs.

use std::alloc::Global;

/// Who does a session's runs: so many threads of that runtime, which the gate watches; and where memory is from.
#[derive(Clone, Copy)]
pub struct Runner<'a, T, G> {
    pub rt: &'a T,
    pub alloc: Global,
    pub workers: usize,
    pub gate: &'a G,
}
