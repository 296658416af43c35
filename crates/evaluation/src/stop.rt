//! Why an evaluation stopped.

use meaning::FaultKind;

/// No memory, or a fault of the program.
#[derive(Clone, Copy)]
pub enum Stop {
    NoMemory,
    Fault(FaultKind),
}
