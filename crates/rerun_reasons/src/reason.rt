//! Why instances are executed, and what a run's memo instances come to.

/// How many instances of a procedure are executed, and how many are answered by a record; and how many of those executed one worker
/// leaves unrecorded, since those around them have all kits.
#[derive(Clone, Copy, Default)]
pub struct Count {
    pub executed: u64,
    pub reused: u64,
    pub unrecorded: u64,
}

/// How far a run's instances are known: all, or those before its fault.
#[derive(Clone, Copy)]
pub enum Ending {
    Whole,
    Fault,
}

/// Why a record doesn't answer an instance. Procedures, tables and columns go by their numbers.
#[derive(Clone, Copy)]
pub enum Reason {
    /// There is no record of its procedure with its arguments.
    NoRecord,
    /// A procedure that was entered is another now.
    Defined(usize),
    /// A cell that was read is another now.
    Cell {
        table: usize,
        row: i64,
        column: usize,
        was: i64,
        found: i64,
    },
    /// A row that was there is gone, or one that wasn't there is there now.
    Row {
        table: usize,
        row: i64,
        was: bool,
    },
    /// The limit of a table is another now.
    Limit {
        table: usize,
        was: i64,
        found: i64,
    },
    /// The sum of a column is another now.
    Sum {
        table: usize,
        column: usize,
        was: i64,
        found: i64,
    },
    /// As deep as its instance went, it would pass the deepest level from here.
    TooDeep,
}

/// An instance that is executed, by its procedure's number, its arguments and its depth, and why no record answers it.
#[derive(Drop)]
pub struct Explained {
    pub procedure: usize,
    pub arguments: Vec<i64>,
    pub depth: u32,
    pub reason: Reason,
}

/// What a run's memo instances come to, and why the first are executed that are.
#[derive(Drop)]
pub struct Reasons {
    /// For each procedure by its number.
    pub counts: Vec<Count>,
    /// The first that are executed, in the order of the serial run: none where there are no records at all.
    pub first: Vec<Explained>,
    /// Whether there are records.
    pub has_records: bool,
    pub ending: Ending,
}
