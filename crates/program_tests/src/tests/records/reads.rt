//! What an instance has read, and those below it by reference.

use super::super::beginnings::sales;
use super::making::{cell, reads_of};
use evaluation::note::Note;
use evaluation::reading::Reading;
use instance_records::readings::Readings;
use std::alloc::Global;
use std::process::Abort;

/// What an instance has read that noted the price of row 2, above two that share what they have read: its quantity.
fn above(rt: &impl Abort, alloc: Global, quantity: i64) -> Readings {
    let below = reads_of(rt, alloc, &[cell(2, 0, quantity)], Vec::new(alloc));
    let first = below.share().expect(rt, "memory");
    let parts = Vec::from_array(alloc, [first, below]).expect(rt, "memory");
    reads_of(rt, alloc, &[cell(2, 1, 7)], parts)
}

/// Whether the own notes come first, and then those of each part.
fn is_in_order(alloc: Global, reads: &Readings) -> bool {
    match reads.notes(alloc) {
        Ok(notes) => {
            let own = notes.len() == 3 && notes[0] == cell(2, 1, 7);
            own && notes[1] == cell(2, 0, 3) && notes[2] == cell(2, 0, 3)
        }
        Err(_) => false,
    }
}

/// Whether the tables hold what was read where the parts have read that quantity.
fn agrees_at(rt: &impl Abort, alloc: Global, quantity: i64) -> bool {
    above(rt, alloc, quantity).agree(&sales(rt, alloc))
}

/// The own notes come first. Row 2 has the quantity 3.
#[test]
fn parts_are_read_too(rt: HostRuntime) {
    assert!(&rt; is_in_order(rt.alloc(), &above(&rt, rt.alloc(), 3)));
    let agree = [agrees_at(&rt, rt.alloc(), 3), agrees_at(&rt, rt.alloc(), 4)];
    assert!(&rt; agree == [true, false]);
}

/// What an instance has read that noted both cells of row 2.
fn pair(rt: &impl Abort) -> Readings {
    let quantity = Reading::new(&cell(2, 0, 3)).expect(rt, "a short reading");
    let price = Reading::new(&cell(2, 1, 7)).expect(rt, "a short reading");
    Readings::of_two([quantity, price])
}

/// Whether these are the notes of both cells.
fn are_both(alloc: Global, reads: &Readings) -> bool {
    match reads.notes(alloc) {
        Ok(notes) => notes.len() == 2 && notes[0] == cell(2, 0, 3) && notes[1] == cell(2, 1, 7),
        Err(_) => false,
    }
}

/// Two readings are the same where they are shared.
#[test]
fn two_lie_by_themselves(rt: HostRuntime) {
    let shared = pair(&rt).share().expect(&rt, "memory");
    assert!(&rt; are_both(rt.alloc(), &shared));
    assert!(&rt; shared.agree(&sales(&rt, rt.alloc())));
}
