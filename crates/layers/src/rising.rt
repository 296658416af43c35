// Readings of which each comes behind the one before it, so that none stands among them twice.
ghost use Rattle.std.specs.Prelude.{◌≡◌, ◌*◌, ◌+◌, map, true};
ghost use Rattle.evaluation.specs.Short.{note_of};
ghost use Rattle.positions.specs.Values.{once};
ghost use Rattle.layers.specs.Ranks.{rank_of};

use evaluation::reading::Reading;

/// Whether each reading comes behind the one before it, by rows, then tables, then columns, as an instance reads that goes through
/// rows in order. It takes one comparison a reading.
pub(crate) fn are_rising(found: &[Reading]) -> bool
    ensures distinct { result ≡ true → once (map note_of found.now) ≡ map note_of found.now }
{
    let mut last = 0;
    for reading in found {
        let rank = rank(reading);
        if rank <= last {
            return false;
        }
        last = rank;
    }
    true
}

/// A reading's place in that order: readings that are the same have the same. It is 0 where the row is no cell's.
#[inline(always)]
fn rank(reading: &Reading) -> u64
    ensures rank { result ≡ rank_of (note_of reading.now) }
{
    match reading {
        Reading::Cell {
            column,
            table,
            row,
            ..
        } => place(*row, *table, u16::from(*column) + 1),
        Reading::Has { table, row, .. } => {
            if 0 <= *row && *row <= 4_294_967_295 {
                place(*row as u32, *table, 0)
            } else {
                0
            }
        }
        Reading::Limit { table, .. } => place(0, *table, 257),
        Reading::Sum { column, table, .. } => place(0, *table, u16::from(*column) + 258),
    }
}

/// The place of a row's part of a table.
#[inline(always)]
fn place(row: u32, table: u16, part: u16) -> u64
    ensures place { result ≡ row * 4294967296 + table * 65536 + part }
{
    u64::from(row) * 4_294_967_296 + u64::from(table) * 65536 + u64::from(part)
}
