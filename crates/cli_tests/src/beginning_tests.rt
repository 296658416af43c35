// Sessions that can't begin.
use crate::running::begin_error;
use cli::beginning::BeginError;
use prepared_program::prepare::PrepareError;
use std::alloc::Global;

const TOTAL: &[u8] = b"reducer total : add; proc main() { return 0; }";

// Whether no session is begun for want of a kit, as against memory; none where it is something else.
fn wants_a_kit(alloc: Global, kits: usize, are_theirs: bool) -> Option<bool> {
    match &begin_error(alloc, TOTAL, "", kits, are_theirs) {
        Some(BeginError::Prepare(PrepareError::NoMemory)) => Some(false),
        Some(BeginError::NoKit) => Some(true),
        _ => None,
    }
}

#[test]
fn views_of_another_kind_and_no_kits(rt: HostRuntime) {
    assert!(&rt; wants_a_kit(rt.alloc(), 1, false) == Some(false));
    assert!(&rt; wants_a_kit(rt.alloc(), 0, true) == Some(true));
}
