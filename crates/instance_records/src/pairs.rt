// Readings that lie in their records, two at most in each, in one list.
ghost use Rattle.std.specs.Prelude.{◌≡◌, ◌++◌, [], IfOk, List, map, true};
ghost use Rattle.meaning.specs.Every.{every};
ghost use Rattle.evaluation.specs.Short.{note_of};
ghost use Rattle.instance_records.specs.declared.spans.Span.{Span};
ghost use Rattle.instance_records.specs.Readings.{all_of};
ghost use Rattle.instance_records.specs.Spans.{is_covered_by};

use crate::readings::Readings;
use evaluation::reading::Reading;
use std::alloc::{AllocError, Global};

/// Whether these are some, of no more than two readings each, which lie by themselves.
pub(crate) fn are_pairs(parts: &[Readings]) -> bool {
    for part in parts {
        if !part.is_pair() {
            return false;
        }
    }
    !parts.is_empty()
}

/// Whether nothing was read in any of these.
pub(crate) fn are_nothing(parts: &[Readings]) -> bool
    ensures none { result ≡ true → all_of parts.now ≡ [] }
{
    for part in parts {
        if !part.is_nothing() {
            return false;
        }
    }
    true
}

/// Copies of these readings, then of those of the parts; refused where one of them lies in a node.
pub(crate) fn with_pairs(
    alloc: Global,
    own: &[Reading],
    parts: &[Readings],
) -> Result<Vec<Reading>, AllocError>
    ensures made { IfOk result (λ all. map note_of all.items ≡ map note_of own.now ++ all_of parts.now) }
{
    let pairs = parts.len().saturating_mul(2);
    let mut all = Vec::with_capacity(alloc, own.len().saturating_add(pairs))?;
    all.extend_from_slice(own)?;
    for part in parts {
        part.put_pair(&mut all)?;
    }
    Ok(all)
}

/// Whether a cell or a row was read of the row of which the other was.
#[inline(always)]
pub(crate) fn is_of_row(reading: &Reading, other: &Reading) -> bool
    ensures of { result ≡ true → (h : List Span)
        → is_covered_by h (note_of reading.now) ≡ is_covered_by h (note_of other.now) }
{
    match reading {
        Reading::Cell { table, row, .. } => match other {
            Reading::Cell {
                table: of,
                row: at,
                ..
            } => *table == *of && *row == *at,
            _ => false,
        },
        Reading::Has { table, row, .. } => match other {
            Reading::Has {
                table: of,
                row: at,
                ..
            } => *table == *of && *row == *at,
            _ => false,
        },
        _ => false,
    }
}

/// Whether the two were read, one by one, of the rows of which the others were.
#[inline(always)]
pub(crate) fn are_of_rows(pair: &[Reading; 2], others: &[Reading; 2]) -> bool
    ensures of { result ≡ true → (h : List Span) → every (is_covered_by h) (map note_of others.now) ≡ true
        → every (is_covered_by h) (map note_of pair.now) ≡ true }
{
    if !is_of_row(&pair[0], &others[0]) {
        return false;
    }
    is_of_row(&pair[1], &others[1])
}
