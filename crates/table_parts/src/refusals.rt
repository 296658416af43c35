// Why an edit of a row is refused.

ghost use Rattle.std.specs.Prelude.{◌≡◌, ◌<◌, OnOk, IfErr, Some, None, true};
ghost use Rattle.meaning.specs.Edits.{in_range};
ghost use Rattle.table_parts.specs.Refusals.{put_refusal, delete_refusal};

use crate::bounds::is_row_number;
use thiserror::Error;

/// Why an edit of a row is refused.
#[derive(Debug, Drop, Error)]
pub enum RowError {
    /// There is no table of the name.
    #[error("refused E4")]
    UnknownTable,
    /// The row has another number of values than the table has columns.
    #[error("refused E5")]
    WrongColumns,
    /// The row's number isn't in 0 to 2147483647.
    #[error("refused E6")]
    RowRange,
    /// There is no row of the number.
    #[error("refused E7")]
    NoRow,
    /// As many edits were accepted as can be counted.
    #[error("refused E18")]
    Exhausted,
}

/// Whether a row of so many values may be put into a table of so many columns, behind so many edits, or why it may not.
pub fn check_put(row: i64, values: usize, columns: usize, edits: u64) -> Result<(), RowError>
    ensures wide { OnOk result (values ≡ columns) }
    ensures range { OnOk result (in_range row ≡ true) }
    ensures room { OnOk result (edits < 18446744073709551615) }
    ensures allowed { OnOk result (put_refusal row values columns edits ≡ None) }
    ensures refused { IfErr result (λ error. put_refusal row values columns edits ≡ Some error) }
{
    if !is_row_number(row) {
        return Err(RowError::RowRange);
    }
    if columns != values {
        return Err(RowError::WrongColumns);
    }
    if edits == u64::MAX {
        return Err(RowError::Exhausted);
    }
    Ok(())
}

/// Whether a row that is there, or isn't, may be taken out of a table, behind so many edits, or why it may not.
pub fn check_delete(row: i64, there: bool, edits: u64) -> Result<(), RowError>
    ensures room { OnOk result (edits < 18446744073709551615) }
    ensures allowed { OnOk result (delete_refusal row there edits ≡ None) }
    ensures refused { IfErr result (λ error. delete_refusal row there edits ≡ Some error) }
{
    if !is_row_number(row) {
        return Err(RowError::RowRange);
    }
    if !there {
        return Err(RowError::NoRow);
    }
    if edits == u64::MAX {
        return Err(RowError::Exhausted);
    }
    Ok(())
}
