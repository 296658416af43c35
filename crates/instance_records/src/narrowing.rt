//! How often readings that rest on a change were read, looked for in the lowest instance that has read all that it may have changed.
ghost use Rattle.std.specs.Prelude.{◌≡◌, ◌≤◌, ◌++◌, ◌∷◌, [], IfSome, length, map, not, take, true, false};
ghost use Rattle.std.specs.List.{flat_map};
ghost use Rattle.meaning.specs.Every.{every};
ghost use Rattle.evaluation.specs.declared.note.Note.{Note as PlainNote};
ghost use Rattle.evaluation.specs.Short.{note_of};
ghost use Rattle.instance_records.specs.Readings.{node_notes, shared_notes, is_covered, is_covered_share};
ghost use Rattle.record_theory.specs.InStep.{is_apart};
ghost use Rattle.record_theory.specs.Counts.{how_many};
ghost use Rattle.record_theory.specs.Same.{is_read, same_note};

use crate::own::has_own;
use crate::readings::{Node, node_has};
use crate::touching::{are_own_touched, node_is_touched, rests_on};
use evaluation::note::Note;
use evaluation::reading::Reading;
use std::slice;
use std::sync::Arc;

/// The lowest node, there or below, that has all that was read there and rests on the change.
#[cycle(narrowing)]
pub(crate) fn lowest<'a>(node: &'a Node, change: &(usize, i64)) -> &'a Node
    requires covered { is_covered node.now ≡ true }
    ensures covered { is_covered result.now ≡ true }
    ensures same { (note : PlainNote) → is_apart (change.now ∷ []) note ≡ false
        → is_read (node_notes result.now) note ≡ is_read (node_notes node.now) note }
{
    match &node.below {
        Some(below) => {
            if are_own_touched(node.own.as_slice(), slice::from_ref(change)) {
                return node;
            }
            lowest_of(below.parts.as_slice(), node, change)
        }
        None => node,
    }
}

// The lowest node in the one part that the change may have changed; the node that has the parts, where it isn't one.
#[cycle(narrowing)]
fn lowest_of<'a>(parts: &'a [Arc<Node>], node: &'a Node, change: &(usize, i64)) -> &'a Node
    requires covered { is_covered node.now ≡ true }
    requires parts { every is_covered_share parts.now ≡ true }
    requires below { (note : PlainNote) → is_apart (change.now ∷ []) note ≡ false
        → is_read (node_notes node.now) note ≡ is_read (flat_map shared_notes parts.now) note }
    ensures covered { is_covered result.now ≡ true }
    ensures same { (note : PlainNote) → is_apart (change.now ∷ []) note ≡ false
        → is_read (node_notes result.now) note ≡ is_read (node_notes node.now) note }
{
    let place = first_touched(parts, change);
    if place >= parts.len() {
        return node;
    }
    if !are_apart(&parts[place + 1..], change) {
        return node;
    }
    lowest(&parts[place], change)
}

// The place of the first of the parts that the change may have changed, or of the last: it needn't be asked, since it is gone down anyway.
fn first_touched(parts: &[Arc<Node>], change: &(usize, i64)) -> usize
    requires covered { every is_covered_share parts.now ≡ true }
    ensures apart { every (is_apart (change.now ∷ [])) (flat_map shared_notes (take result parts.now))
        ≡ true }
{
    let last = parts.len().saturating_sub(1);
    for place in 0..last {
        if node_is_touched(&parts[place], slice::from_ref(change)) {
            return place;
        }
    }
    last
}

// Whether the change has changed nothing that was read in these parts.
fn are_apart(parts: &[Arc<Node>], change: &(usize, i64)) -> bool
    requires covered { every is_covered_share parts.now ≡ true }
    ensures apart { result ≡ true
        → every (is_apart (change.now ∷ [])) (flat_map shared_notes parts.now) ≡ true }
{
    for part in parts {
        if node_is_touched(part, slice::from_ref(change)) {
            return false;
        }
    }
    true
}

/// How many of these readings and how many of those were read there or below, all of which rest on the change.
pub(crate) fn how_many(
    node: &Node,
    change: &(usize, i64),
    lost: &[Note],
    won: &[Note],
) -> (u64, u64)
    requires covered { is_covered node.now ≡ true }
    requires rest { every (λ n. not (is_apart (change.now ∷ []) n)) (lost.now ++ won.now) ≡ true }
    ensures lost { result.0 ≡ how_many same_note lost.now (node_notes node.now) }
    ensures won { result.1 ≡ how_many same_note won.now (node_notes node.now) }
    ensures few { result.0 ≤ length lost.now }
{
    match &node.below {
        Some(_) => (how_many_in(node, lost), how_many_in(node, won)),
        None => {
            let own = touched_to(touched_on(node.own.as_slice(), change), change);
            (how_many_own(own, lost), how_many_own(own, won))
        }
    }
}

/// The readings of its own from the first to the last that rests on the change; none where something lies below.
pub(crate) fn touched_own<'a>(node: &'a Node, change: &(usize, i64)) -> Option<&'a [Reading]>
    ensures same { IfSome result (λ own. (note : PlainNote) → is_apart (change.now ∷ []) note ≡ false
        → is_read (map note_of own.now) note ≡ is_read (node_notes node.now) note) }
{
    match &node.below {
        Some(_) => None,
        None => Some(touched_to(touched_on(node.own.as_slice(), change), change)),
    }
}

fn how_many_in(node: &Node, notes: &[Note]) -> u64
    requires covered { is_covered node.now ≡ true }
    ensures many { result ≡ how_many same_note notes.now (node_notes node.now) }
    ensures few { result ≤ length notes.now }
{
    let mut count = 0;
    for note in notes {
        if node_has(node, note) {
            count += 1;
        }
    }
    count
}

/// How many of these notes are among the readings.
pub fn how_many_own(own: &[Reading], notes: &[Note]) -> u64
    ensures many { result ≡ how_many same_note notes.now (map note_of own.now) }
    ensures few { result ≤ length notes.now }
{
    let mut count = 0;
    for note in notes {
        if has_own(own, note) {
            count += 1;
        }
    }
    count
}

// These readings from the first on that rests on the change.
fn touched_on<'a>(own: &'a [Reading], change: &(usize, i64)) -> &'a [Reading]
    ensures same { (note : PlainNote) → is_apart (change.now ∷ []) note ≡ false
        → is_read (map note_of result.now) note ≡ is_read (map note_of own.now) note }
{
    let mut first = 0;
    while first < own.len() && !rests_on(&own[first], change) {
        first += 1;
    }
    &own[first..]
}

// These readings up to the last one that rests on the change.
#[tactic(auto, using(crate::proofs::Narrowed::one_fewer))]
fn touched_to<'a>(own: &'a [Reading], change: &(usize, i64)) -> &'a [Reading]
    ensures same { (note : PlainNote) → is_apart (change.now ∷ []) note ≡ false
        → is_read (map note_of result.now) note ≡ is_read (map note_of own.now) note }
{
    let mut end = own.len();
    while end > 0 && !rests_on(&own[end - 1], change) {
        end -= 1;
    }
    &own[..end]
}
