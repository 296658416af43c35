// Readings in fewer bytes.
ghost use Rattle.std.specs.Prelude.{◌≡◌, IfOk, IfSome, is_some, nat_le, map, pos};
ghost use Rattle.evaluation.specs.Short.{note_of, is_short, fits_row};

use crate::note::Note;
use std::alloc::{AllocError, Global};

/// A note in 16 bytes: the number of a table takes two of them, a column's one, and a cell's row four.
#[derive(Clone, Copy)]
pub enum Reading {
    Cell {
        column: u8,
        table: u16,
        row: u32,
        value: i64,
    },
    Has {
        found: bool,
        table: u16,
        row: i64,
    },
    Limit {
        table: u16,
        value: i64,
    },
    Sum {
        column: u8,
        table: u16,
        value: i64,
    },
}

// A table's number in two bytes, where it fits.
fn short_table(number: usize) -> Option<u16>
    ensures same { IfSome result (λ n. n ≡ number) }
    ensures there { is_some result ≡ nat_le number 65535 }
{
    if number <= 65535 {
        Some(number as u16)
    } else {
        None
    }
}

// A column's number in one byte, where it fits.
fn short_column(number: usize) -> Option<u8>
    ensures same { IfSome result (λ n. n ≡ number) }
    ensures there { is_some result ≡ nat_le number 255 }
{
    if number <= 255 {
        Some(number as u8)
    } else {
        None
    }
}

// A row's number in four bytes, where it fits.
fn short_row(row: i64) -> Option<u32>
    ensures same { IfSome result (λ n. pos n ≡ row) }
    ensures there { is_some result ≡ fits_row row }
{
    if 0 <= row && row <= 4_294_967_295 {
        Some(row as u32)
    } else {
        None
    }
}

impl Reading {
    /// The note in fewer bytes; none where the number of a table, a column or a cell's row is too large, which no program's is.
    #[inline(always)]
    pub fn new(note: &Note) -> Option<Reading>
        ensures made { IfSome result (λ r. note_of r ≡ note.now) }
        ensures there { is_some result ≡ is_short note.now }
    {
        match note {
            Note::Cell {
                table,
                row,
                column,
                value,
            } => Some(Reading::Cell {
                column: short_column(*column)?,
                table: short_table(*table)?,
                row: short_row(*row)?,
                value: *value,
            }),
            Note::Has { table, row, found } => Some(Reading::Has {
                found: *found,
                table: short_table(*table)?,
                row: *row,
            }),
            Note::Limit { table, value } => Some(Reading::Limit {
                table: short_table(*table)?,
                value: *value,
            }),
            Note::Sum {
                table,
                column,
                value,
            } => Some(Reading::Sum {
                column: short_column(*column)?,
                table: short_table(*table)?,
                value: *value,
            }),
        }
    }

    /// The note.
    pub fn note(&self) -> Note
        ensures note { result ≡ note_of self.now }
    {
        match self {
            Reading::Cell {
                column,
                table,
                row,
                value,
            } => Note::Cell {
                table: usize::from(*table),
                row: i64::from(*row),
                column: usize::from(*column),
                value: *value,
            },
            Reading::Has { found, table, row } => Note::Has {
                table: usize::from(*table),
                row: *row,
                found: *found,
            },
            Reading::Limit { table, value } => Note::Limit {
                table: usize::from(*table),
                value: *value,
            },
            Reading::Sum {
                column,
                table,
                value,
            } => Note::Sum {
                table: usize::from(*table),
                column: usize::from(*column),
                value: *value,
            },
        }
    }
}

/// The notes in fewer bytes, without spare room. An error is want of memory, or a number that is too large.
pub fn readings(alloc: Global, notes: &[Note]) -> Result<Vec<Reading>, AllocError>
    ensures made { IfOk result (λ rs. map note_of rs.items ≡ notes.now) }
{
    let mut made = Vec::new(alloc);
    made.reserve_exact(notes.len())?;
    for note in notes {
        match Reading::new(note) {
            Some(reading) => made.push(reading)?,
            None => return Err(AllocError),
        }
    }
    Ok(made)
}
