//! Rows of which the cells of some columns were read.
ghost use Rattle.std.specs.Prelude.{◌≡◌, ◌≤◌, ◌≤ℤ◌, ◌<ℤ◌, List, pos, true};
ghost use Rattle.evaluation.specs.declared.note.Note.{Note as PlainNote};
ghost use Rattle.instance_records.specs.Full.{HasCells, IsFull};

/// Rows of a table from one up to another, and columns from one up to another: of each of these rows the cells of each of these columns
/// were read. It says nothing of others.
#[derive(Clone, Copy)]
pub(crate) struct Full {
    pub(crate) low: u32,
    pub(crate) until: u32,
    pub(crate) table: u16,
    pub(crate) first: u16,
    pub(crate) end: u16,
}

impl Full {
    /// No rows.
    #[inline(always)]
    pub(crate) fn none() -> Full
        ensures full { (notes : List PlainNote) → IsFull notes result }
        ensures few { result.end ≡ 0 }
    {
        Full {
            low: 0,
            until: 0,
            table: 0,
            first: 0,
            end: 0,
        }
    }

    /// Puts in rows of which the same was read, where they are the next ones of the same columns; else the more rows of both count.
    #[inline(always)]
    pub(crate) fn join(&mut self, other: &Full)
        ensures full { (notes : List PlainNote) → IsFull notes self.old → IsFull notes other.now
            → IsFull notes self.new }
    {
        if self.is_before(other) {
            self.until = other.until;
            return;
        }
        if self.rows() < other.rows() {
            *self = *other;
        }
    }

    // Whether the other rows are the next ones, of the same columns.
    #[inline(always)]
    fn is_before(&self, other: &Full) -> bool
        ensures until { result ≡ true → self.now.until ≡ other.now.low }
        ensures table { result ≡ true → self.now.table ≡ other.now.table }
        ensures first { result ≡ true → self.now.first ≡ other.now.first }
        ensures end { result ≡ true → self.now.end ≡ other.now.end }
    {
        self.until == other.low
            && self.end == other.end
            && self.first == other.first
            && self.table == other.table
    }

    // How many rows they are; none, where of no column.
    #[inline(always)]
    fn rows(&self) -> u32 {
        if self.first >= self.end {
            return 0;
        }
        self.until.saturating_sub(self.low)
    }

    /// Whether of the changed row, given by its table's number and its own, the cells of the columns from one up to another were read.
    #[inline(always)]
    pub(crate) fn has(&self, change: &(usize, i64), first: usize, end: usize) -> bool
        ensures has { result ≡ true → (notes : List PlainNote) → IsFull notes self.now
            → HasCells notes change.now.0 change.now.1 first end }
    {
        if !self.has_row(change) {
            return false;
        }
        self.has_columns(first, end)
    }

    // Whether the changed row is one of these.
    #[inline(always)]
    fn has_row(&self, change: &(usize, i64)) -> bool
        ensures table { result ≡ true → self.now.table ≡ change.now.0 }
        ensures low { result ≡ true → pos self.now.low ≤ℤ change.now.1 }
        ensures until { result ≡ true → change.now.1 <ℤ pos self.now.until }
    {
        usize::from(self.table) == change.0
            && i64::from(self.low) <= change.1
            && change.1 < i64::from(self.until)
    }

    // Whether these columns are among its own.
    #[inline(always)]
    fn has_columns(&self, first: usize, end: usize) -> bool
        ensures first { result ≡ true → self.now.first ≤ first }
        ensures end { result ≡ true → end ≤ self.now.end }
    {
        usize::from(self.first) <= first && end <= usize::from(self.end)
    }
}
