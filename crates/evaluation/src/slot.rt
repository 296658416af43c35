//! The slots of an instance's names.

/// A name's slot: nothing yet, the value of the child of that number is still out, or a value.
#[derive(Clone, Copy)]
pub enum Slot {
    Unset,
    Waits(usize),
    Has(i64),
}
