// Walks over all that was read in a node and below it: whether tables hold it, and copies of it.
ghost use Rattle.std.specs.Prelude.{◌≡◌, ◌++◌, OnOk, map};
ghost use Rattle.std.specs.List.{flat_map};
ghost use Rattle.meaning.specs.Every.{every};
ghost use Rattle.evaluation.specs.Short.{note_of};
ghost use Rattle.instance_records.specs.Readings.{node_notes, shared_notes};
ghost use Rattle.record_theory.specs.Validity.{note_agrees};

use crate::readings::Node;
use evaluation::note::Note;
use evaluation::reading::Reading;
use input_tables::Tables;
use record_theory::agreement::reads_agree;
use std::alloc::AllocError;
use std::sync::Arc;

/// Whether the tables hold what was read there and below.
#[cycle(agreeing)]
pub(crate) fn node_agrees(node: &Node, tables: &Tables) -> bool
    ensures agrees { result ≡ every (note_agrees tables.now.tables) (node_notes node.now) }
{
    if !reads_agree(node.own.as_slice(), tables) {
        return false;
    }
    match &node.below {
        Some(below) => parts_agree(below.parts.as_slice(), tables),
        None => true,
    }
}

#[cycle(agreeing)]
fn parts_agree(parts: &[Arc<Node>], tables: &Tables) -> bool
    ensures agree { result
        ≡ every (note_agrees tables.now.tables) (flat_map shared_notes parts.now) }
{
    for part in parts {
        if !node_agrees(part, tables) {
            return false;
        }
    }
    true
}
/// Puts the notes of a node and of those below it behind others.
#[cycle(putting)]
pub(crate) fn put_notes(node: &Node, notes: &mut Vec<Note>) -> Result<(), AllocError>
    ensures put { OnOk result (notes.new.items ≡ notes.old.items ++ node_notes node.now) }
{
    put_own(node.own.as_slice(), notes)?;
    match &node.below {
        Some(below) => put_parts(below.parts.as_slice(), notes),
        None => Ok(()),
    }
}

#[cycle(putting)]
fn put_parts(parts: &[Arc<Node>], notes: &mut Vec<Note>) -> Result<(), AllocError>
    ensures put { OnOk result
        (notes.new.items ≡ notes.old.items ++ flat_map shared_notes parts.now) }
{
    for part in parts {
        put_notes(part, notes)?;
    }
    Ok(())
}

/// Puts the notes of these readings behind others.
pub(crate) fn put_own(own: &[Reading], notes: &mut Vec<Note>) -> Result<(), AllocError>
    ensures put { OnOk result (notes.new.items ≡ notes.old.items ++ map note_of own.now) }
{
    for reading in own {
        notes.push(reading.note())?;
    }
    Ok(())
}
