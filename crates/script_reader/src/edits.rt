// The edits of a script.
ghost use Rattle.std.specs.Prelude.{◌≡◌, true, IfOk, IsUtf8};
ghost use Rattle.meaning.specs.Every.{every};
ghost use Rattle.meaning.specs.Script.{is_shown, number_of, numbers_of, put_of, delete_of, edit_of};
ghost use Rattle.script_lines.specs.Words.{bytes_of};
ghost use Rattle.script_reader.specs.Said.{said_edit};

use crate::numbers::{number, numbers};
use script_lines::words::text_of;
use session_edits::Edit;
use std::alloc::{AllocError, Global};

// The put of a row into a table, by the words of the row's number and of its values.
fn put<'a>(
    alloc: Global,
    table: &'a [u8],
    row: &[u8],
    values: &[&[u8]],
) -> Result<Option<Edit<'a>>, AllocError>
    requires { IsUtf8 table.now }
    ensures { IfOk result (λ found. said_edit found
        ≡ put_of table.now (number_of row.now) (numbers_of (bytes_of values.now))) }
{
    let numbers = numbers(alloc, values)?;
    match (number(row), numbers) {
        (Some(row), Some(values)) if !values.is_empty() => Ok(Some(Edit::Put {
            table: text_of(table),
            row,
            values,
        })),
        _ => Ok(None),
    }
}

// The delete of a row from a table, by the word of the row's number and what stands behind it.
fn delete<'a>(table: &'a [u8], row: &[u8], rest: &[&[u8]]) -> Option<Edit<'a>>
    requires { IsUtf8 table.now }
    ensures { said_edit result ≡ delete_of table.now (number_of row.now) (bytes_of rest.now) }
{
    let row = number(row)?;
    if !rest.is_empty() {
        return None;
    }
    Some(Edit::Delete {
        table: text_of(table),
        row,
    })
}

/// The edit that these words are, if they are one. Want of memory is the only error.
pub(crate) fn edit<'a>(alloc: Global, words: &[&'a [u8]]) -> Result<Option<Edit<'a>>, AllocError>
    requires { every (every is_shown) (bytes_of words.now) ≡ true }
    ensures { IfOk result (λ found. said_edit found ≡ edit_of (bytes_of words.now)) }
{
    if words.len() < 3 {
        return Ok(None);
    }
    let (table, row, rest) = (words[1], words[2], &words[3..]);
    if words[0] == b"put".as_slice() {
        return put(alloc, table, row, rest);
    }
    if words[0] == b"del".as_slice() {
        return Ok(delete(table, row, rest));
    }
    Ok(None)
}
