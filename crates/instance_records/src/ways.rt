//! The way down from what an instance has read to the readings of one below it, so that those around that one find them by it.
ghost use Rattle.std.specs.Prelude.{◌≡◌, IfSome, map, option_copied, slice_get, true};
ghost use Rattle.std.specs.List.{flat_map};
ghost use Rattle.evaluation.specs.declared.note.Note.{Note as PlainNote};
ghost use Rattle.evaluation.specs.declared.note.Note.TheVariants.{Cell};
ghost use Rattle.evaluation.specs.Short.{note_of};
ghost use Rattle.instance_records.specs.Readings.{node_notes, shared_notes};
ghost use Rattle.record_theory.specs.Same.{is_read, same_note};

use crate::few_spans::FewSpans;
use crate::readings::Node;
use crate::spans::{Span, are_touched};
use crate::touching::are_own_touched;
use evaluation::reading::Reading;
use std::slice;
use std::sync::Arc;

/// Turns are digits of a number, the first one last, below a leading 1: so each is the number of one of so many parts.
const PARTS: u64 = 8;

/// No more turns fit into a number.
const MOST: u64 = 1 << 60;

/// A way has no turns.
pub(crate) const HERE: u64 = 1;

/// No way.
pub const NONE: u64 = 0;

/// A cell's readings lie near the first of a cell of its row: so many are looked through.
const NEAR: usize = 4;

/// The way without its first turn: that of the part to which it leads, most often an instance with a record of its own.
pub fn behind_first(turns: u64) -> u64 {
    turns / PARTS
}

/// The turns from there down to readings of one instance's own that may rest on the change.
pub(crate) fn way_to(node: &Node, change: &(usize, i64)) -> u64 {
    way_from(node, change, 0, HERE)
}

// These turns with those from there down, of which the first is a digit of that unit.
#[cycle(finding)]
fn way_from(node: &Node, change: &(usize, i64), turns: u64, unit: u64) -> u64 {
    match &node.below {
        Some(below) => {
            if are_own_touched(node.own.as_slice(), slice::from_ref(change)) {
                return turns.wrapping_add(unit);
            }
            way_through(below.parts.as_slice(), below.last_from, change, turns, unit)
        }
        None => turns.wrapping_add(unit),
    }
}

#[cycle(finding)]
fn way_through(
    parts: &[Arc<Node>],
    last_from: i64,
    change: &(usize, i64),
    turns: u64,
    unit: u64,
) -> u64 {
    let place = near_by(parts, last_from, change);
    let turn = place as u64;
    if place >= parts.len() || turn >= PARTS || unit >= MOST {
        return NONE;
    }
    let more = turns.wrapping_add(unit.wrapping_mul(turn));
    way_from(&parts[place], change, more, unit.wrapping_mul(PARTS))
}

// The first of the parts in which the change may have changed what was read, or the last. Of two parts none has to be asked, where it is known
// from which row on the second one has read: so neither's spans are fetched from memory.
#[inline(always)]
fn near_by(parts: &[Arc<Node>], last_from: i64, change: &(usize, i64)) -> usize {
    if change.1 >= last_from {
        return parts.len().saturating_sub(1);
    }
    if last_from < i64::MAX && parts.len() == 2 {
        return 0;
    }
    first_near(parts, change)
}

/// The row from which on the last of these parts alone has read, where each of them has read rows of one table, and the last one later rows
/// than the others; else no row comes so late.
pub(crate) fn last_from(parts: &[Arc<Node>]) -> i64 {
    let last = parts.len().saturating_sub(1);
    if last == 0 {
        return i64::MAX;
    }
    let Some(span) = one_span(&parts[last]) else {
        return i64::MAX;
    };
    for part in &parts[..last] {
        match one_span(part) {
            Some(before) => {
                if !before.is_before(span) {
                    return i64::MAX;
                }
            }
            None => return i64::MAX,
        }
    }
    span.low()
}

// The one span of what was read below, where the instance itself has read nothing.
#[inline(always)]
fn one_span(node: &Node) -> Option<&Span> {
    if !node.own.as_slice().is_empty() {
        return None;
    }
    match &node.below {
        Some(below) => match &below.spans {
            FewSpans::One(span) => Some(span),
            FewSpans::Several(_) => None,
        },
        None => None,
    }
}

// The first of the parts in which the change may have changed what was read, or the last: it needn't be asked, as it is gone down anyway.
#[inline(always)]
fn first_near(parts: &[Arc<Node>], change: &(usize, i64)) -> usize {
    let last = parts.len().saturating_sub(1);
    for place in 0..last {
        if is_near(&parts[place], change) {
            return place;
        }
    }
    last
}

// Whether the change may have changed what was read there or below.
#[inline(always)]
fn is_near(node: &Node, change: &(usize, i64)) -> bool {
    if is_below(node, change) {
        return true;
    }
    are_own_touched(node.own.as_slice(), slice::from_ref(change))
}

// Whether the change may have changed what was read below.
#[inline(always)]
fn is_below(node: &Node, change: &(usize, i64)) -> bool {
    match &node.below {
        Some(below) => are_touched(below.spans.as_slice(), slice::from_ref(change)),
        None => false,
    }
}

/// The own readings of the instance to which these turns lead, as far as they do.
#[inline(always)]
pub(crate) fn own_by(node: &Node, turns: u64) -> &[Reading]
    ensures read { (note : PlainNote)
        → is_read (map note_of result.now) note ≡ true → is_read (node_notes node.now) note ≡ true }
{
    node_by(node, turns).own.as_slice()
}

// The node to which these turns lead, as far as they do.
#[cycle(ways)]
fn node_by(node: &Node, turns: u64) -> &Node
    ensures read { (note : PlainNote)
        → is_read (node_notes result.now) note ≡ true → is_read (node_notes node.now) note ≡ true }
{
    if turns <= HERE {
        return node;
    }
    match &node.below {
        Some(below) => node_of(below.parts.as_slice(), node, turns),
        None => node,
    }
}

// The node to which these turns lead from the one that has the parts.
#[cycle(ways)]
fn node_of<'a>(parts: &'a [Arc<Node>], node: &'a Node, turns: u64) -> &'a Node
    requires below { (note : PlainNote) → is_read (flat_map shared_notes parts.now) note ≡ true
        → is_read (node_notes node.now) note ≡ true }
    ensures read { (note : PlainNote)
        → is_read (node_notes result.now) note ≡ true → is_read (node_notes node.now) note ≡ true }
{
    let place = (turns % PARTS) as usize;
    if place >= parts.len() {
        return node;
    }
    node_by(&parts[place], turns / PARTS)
}

/// The place of the first of these readings that is of a cell of the changed row, as soon as they are in the order of their rows.
pub fn first_touched(own: &[Reading], change: &(usize, i64)) -> usize {
    for place in first_behind(own, change.1)..own.len() {
        if is_cell_of(&own[place], change) {
            return place;
        }
    }
    own.len()
}

// Whether the reading is of a cell of that row, given by its table's number and its own.
#[inline(always)]
fn is_cell_of(reading: &Reading, change: &(usize, i64)) -> bool {
    match reading {
        Reading::Cell { table, row, .. } => {
            i64::from(*row) == change.1 && usize::from(*table) == change.0
        }
        _ => false,
    }
}

// The place behind all readings of rows before that one, where they are in the order of their rows.
fn first_behind(own: &[Reading], row: i64) -> usize {
    let mut low = 0;
    let mut high = own.len();
    while low < high {
        let middle = low + (high - low) / 2;
        if is_before(&own[middle], row) {
            low = middle + 1;
        } else {
            high = middle;
        }
    }
    low
}

// Whether the reading is of a row before that one.
#[inline(always)]
fn is_before(reading: &Reading, row: i64) -> bool {
    match reading {
        Reading::Cell { row: at, .. } => i64::from(*at) < row,
        Reading::Has { row: at, .. } => *at < row,
        _ => false,
    }
}

/// The value with which one of a few readings from that place on was read of that cell.
#[inline(always)]
pub fn value_near(
    own: &[Reading],
    first: usize,
    table: usize,
    row: i64,
    column: usize,
) -> Option<i64>
    ensures read { IfSome result (λ value. is_read (map note_of own.now) (Cell table row column value) ≡ true) }
{
    let end = own.len().min(first.saturating_add(NEAR));
    for place in first..end {
        match value_at(own, place, table, row, column) {
            Some(value) => return Some(value),
            None => {}
        }
    }
    None
}

// The value of that cell, where it was read so at that place.
#[inline(always)]
fn value_at(own: &[Reading], place: usize, table: usize, row: i64, column: usize) -> Option<i64>
    ensures read { IfSome result (λ value. is_read (map note_of own.now) (Cell table row column value) ≡ true) }
{
    match reading_at(own, place) {
        Some(reading) => value_of(reading, table, row, column),
        None => None,
    }
}

// The reading at that place.
fn reading_at(own: &[Reading], place: usize) -> Option<&Reading>
    ensures at { option_copied result ≡ slice_get own.now place }
{
    own.get(place)
}

// The value of that cell, where it was read so.
#[inline(always)]
fn value_of(reading: &Reading, table: usize, row: i64, column: usize) -> Option<i64>
    ensures value { IfSome result (λ value. same_note (Cell table row column value) (note_of reading.now) ≡ true) }
{
    match reading {
        Reading::Cell {
            column: under,
            table: of,
            row: at,
            value,
        } => {
            if column != usize::from(*under) {
                return None;
            }
            if row == i64::from(*at) && table == usize::from(*of) {
                return Some(*value);
            }
            None
        }
        _ => None,
    }
}
