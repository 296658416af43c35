// The cells of rows that are equally wide, row behind row in one list.

ghost use Rattle.std.specs.Prelude.{◌≡◌, ◌+◌, ◌*◌, ◌≤◌, ◌++◌, OnOk, OnErr, take, drop, length};

use std::alloc::AllocError;

/// The cells of the row at a place.
#[inline(always)]
pub fn cells_at(cells: &[i64], place: usize, width: usize) -> &[i64]
    requires { place * width + width ≤ length cells.now }
    ensures { result.now ≡ take width (drop (place * width) cells.now) }
{
    let begin = place * width;
    &cells[begin..begin + width]
}

/// Puts a row in front of those from a place on.
pub fn insert_row(cells: &mut Vec<i64>, place: usize, row: &[i64]) -> Result<(), AllocError>
    requires { place * length row.now ≤ length cells.old.items }
    ensures put { OnOk result (cells.new.items ≡ take (place * length row.now) cells.old.items
        ++ (row.now ++ drop (place * length row.now) cells.old.items)) }
    ensures same { OnErr result (cells.new.items ≡ cells.old.items) }
{
    cells.extend_from_slice(row)?;
    let begin = place * row.len();
    cells[begin..].rotate_right(row.len());
    Ok(())
}

/// Puts a row over the one at a place.
pub fn replace_row(cells: &mut Vec<i64>, place: usize, row: &[i64])
    requires { place * length row.now + length row.now ≤ length cells.old.items }
    ensures { cells.new.items ≡ take (place * length row.now) cells.old.items
        ++ (row.now ++ drop (place * length row.now + length row.now) cells.old.items) }
{
    let begin = place * row.len();
    cells[begin..begin + row.len()].copy_from_slice(row);
}

/// Takes the row at a place out.
pub fn remove_row(cells: &mut Vec<i64>, place: usize, width: usize)
    requires { place * width + width ≤ length cells.old.items }
    ensures { cells.new.items ≡ take (place * width) cells.old.items ++ drop (place * width + width) cells.old.items }
{
    let begin = place * width;
    cells[begin..].rotate_left(width);
    let kept = cells.len() - width;
    cells.truncate(kept);
}
