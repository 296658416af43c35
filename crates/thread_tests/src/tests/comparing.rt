//! Comparisons: what an assertion takes the prover is paid here, once.

use std::process::Abort;
use std::sync::atomic::{AtomicUsize, Ordering};

/// Compares texts.
pub fn same_text(rt: &impl Abort, found: &str, wanted: &str) {
    assert_eq!(rt; found, wanted);
}

/// Compares texts, which come of what is said.
pub fn same_text_of(rt: &impl Abort, found: &str, wanted: &str, of: &str) {
    assert_eq!(rt; found, wanted, "{of}");
}

/// Compares counts.
pub fn same_count(rt: &impl Abort, found: usize, wanted: usize) {
    assert_eq!(rt; found, wanted);
}

/// How many drops were counted.
pub fn counted(drops: &AtomicUsize) -> usize {
    drops.load(Ordering::SeqCst)
}
