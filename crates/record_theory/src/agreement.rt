//! Whether the tables hold what was read.
ghost use Rattle.std.specs.Prelude.{◌≡◌, map};
ghost use Rattle.meaning.specs.Every.{every};
ghost use Rattle.evaluation.specs.Short.{note_of};
ghost use Rattle.record_theory.specs.Validity.{note_agrees};

use evaluation::note::Note;
use evaluation::reading::Reading;
use input_tables::Tables;

/// Whether the tables hold what was read. It takes no memory.
pub fn reads_agree(reads: &[Reading], tables: &Tables) -> bool
    ensures agree { result ≡ every (note_agrees tables.now.tables) (map note_of reads.now) }
{
    for reading in reads {
        if !agrees(&reading.note(), tables) {
            return false;
        }
    }
    true
}

fn agrees(note: &Note, tables: &Tables) -> bool
    ensures agrees { result ≡ note_agrees tables.now.tables note.now }
{
    match note {
        Note::Cell {
            table,
            row,
            column,
            value,
        } => tables.cell(*table, *row, *column) == Some(*value),
        Note::Has { table, row, found } => tables.has(*table, *row) == *found,
        Note::Limit { table, value } => tables.limit(*table) == *value,
        Note::Sum {
            table,
            column,
            value,
        } => tables.sum(*table, *column) == *value,
    }
}
