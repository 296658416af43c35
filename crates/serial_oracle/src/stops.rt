//! What ends a run before its value.

use meaning::FaultKind;

/// Memory ran out.
#[derive(Clone, Copy, Debug, PartialEq, Eq)]
pub struct NoMemory;

/// What stopped a run, and the statement where.
#[derive(Clone, Copy)]
pub struct Fault<'p> {
    pub kind: FaultKind,
    pub procedure: &'p str,
    pub statement: u32,
}

/// Why a piece of a run has no answer.
#[derive(Clone, Copy)]
pub enum Stop<'p> {
    Fault(Fault<'p>),
    NoMemory,
}

/// Why an evaluation has no answer.
#[derive(Clone, Copy)]
pub enum Trouble {
    Fault(FaultKind),
    NoMemory,
}

impl Trouble {
    ghost use Rattle.serial_oracle.specs.Results.{IsTrouble};

    /// The trouble at a statement.
    pub(crate) fn at<'p>(self, procedure: &'p str, statement: u32) -> Stop<'p>
        ensures { IsTrouble self procedure.now statement result }
    {
        match self {
            Trouble::Fault(kind) => Stop::Fault(Fault {
                kind,
                procedure,
                statement,
            }),
            Trouble::NoMemory => Stop::NoMemory,
        }
    }
}

ghost use Rattle.serial_oracle.specs.Results.{IsFault};

/// The fault of a kind at a statement.
pub(crate) fn stopped(kind: FaultKind, procedure: &str, statement: u32) -> Stop<'_>
    ensures { IsFault kind procedure.now statement result }
{
    Stop::Fault(Fault {
        kind,
        procedure,
        statement,
    })
}
