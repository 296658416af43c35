// What is below an instance's own readings: the nodes of its parts, with what is noted of all that was read there.
ghost use Rattle.std.specs.Prelude.{◌≡◌, IfOk, OnOk, true};
ghost use Rattle.std.specs.List.{flat_map};
ghost use Rattle.meaning.specs.Every.{every};
ghost use Rattle.evaluation.specs.declared.note.Note.{Note as PlainNote};
ghost use Rattle.instance_records.specs.Full.{IsFull, IsFullNode, IsFullBelow};
ghost use Rattle.instance_records.specs.Readings.{all_of, node_notes, shared_notes, held_notes, is_covered, is_covered_share, is_covered_below};
ghost use Rattle.instance_records.specs.Spans.{is_covered_by};

use crate::few_spans::FewSpans;
use crate::full::Full;
use crate::lines::put_lines;
use crate::readings::{Below, Node, Readings};
use crate::short_list::ShortList;
use crate::spans::{Span, put_read, put_spans};
use crate::ways::last_from;
use std::alloc::{AllocError, Global};
use std::sync::Arc;

/// What was read is mostly of so many tables.
const TABLES: usize = 1;

/// These readings below an instance, if there are any.
pub(crate) fn make_below(
    alloc: Global,
    parts: Vec<Readings>,
) -> Result<Option<Box<Below>>, AllocError>
    ensures below { IfOk result (λ b. held_notes b ≡ all_of parts.items) }
    ensures covered { IfOk result (λ b. is_covered_below b ≡ true) }
    ensures full { IfOk result (λ b. IsFullBelow b) }
{
    if parts.is_empty() {
        return Ok(None);
    }
    let mut spans = Vec::with_capacity(alloc, TABLES)?;
    let mut full = Full::none();
    let list = nodes(alloc, parts, &mut spans, &mut full)?;
    let last_from = last_from(&list);
    let parts = ShortList::packed(list);
    let spans = FewSpans::packed(spans);
    let below = Below {
        parts,
        last_from,
        spans,
        full,
    };
    Ok(Some(Box::new(alloc, below)?))
}

// The nodes of these readings, without spare room; the rows of all that was read there are put into the spans, and those of which the cells
// were are joined.
fn nodes(
    alloc: Global,
    parts: Vec<Readings>,
    spans: &mut Vec<Span>,
    full: &mut Full,
) -> Result<Vec<Arc<Node>>, AllocError>
    requires full { IsFull (all_of parts.items) full.old }
    ensures nodes { IfOk result (λ ns. flat_map shared_notes ns.items ≡ all_of parts.items) }
    ensures each { IfOk result (λ ns. every is_covered_share ns.items ≡ true) }
    ensures spans { IfOk result (λ ns.
        every (is_covered_by spans.new.items) (flat_map shared_notes ns.items) ≡ true) }
    ensures full { OnOk result (IsFull (all_of parts.items) full.new) }
{
    let mut nodes = Vec::new(alloc);
    nodes.reserve_exact(parts.len())?;
    for part in parts {
        let node = part.into_node(alloc)?;
        let part = put_part(&node, spans)?;
        full.join(&part);
        nodes.push(node)?;
    }
    Ok(nodes)
}

// Joins spans with the rows of what was read there and below, and finds rows of which the cells were.
#[inline(always)]
fn put_part(node: &Node, spans: &mut Vec<Span>) -> Result<Full, AllocError>
    requires covered { is_covered node.now ≡ true }
    requires full { IsFullNode node.now }
    ensures kept { OnOk result ((note : PlainNote) → is_covered_by spans.old.items note ≡ true
        → is_covered_by spans.new.items note ≡ true) }
    ensures put { OnOk result (every (is_covered_by spans.new.items) (node_notes node.now) ≡ true) }
    ensures full { IfOk result (λ f. IsFull (node_notes node.now) f) }
{
    match &node.below {
        Some(below) => {
            put_node(node, spans)?;
            Ok(below.full)
        }
        None => put_lines(node.own.as_slice(), spans),
    }
}

/// Joins spans with the rows of what was read there and below: its parts aren't asked, since their rows lie in its own spans.
#[inline(always)]
pub(crate) fn put_node(node: &Node, spans: &mut Vec<Span>) -> Result<(), AllocError>
    requires covered { is_covered node.now ≡ true }
    ensures kept { OnOk result ((note : PlainNote) → is_covered_by spans.old.items note ≡ true
        → is_covered_by spans.new.items note ≡ true) }
    ensures put { OnOk result (every (is_covered_by spans.new.items) (node_notes node.now) ≡ true) }
{
    put_read(node.own.as_slice(), spans)?;
    match &node.below {
        Some(below) => put_spans(below.spans.as_slice(), spans),
        None => Ok(()),
    }
}
