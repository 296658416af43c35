//! What a strand that has just begun is known by.

use super::driving::begin;
use super::thefts::{pool_of, taken};
use frames::strand::Strand;
use linked_program::checked::Checked;
use positions::answer::RunAnswer;
use positions::phase::Phase;
use std::alloc::Global;
use std::process::Abort;
use test_kit::beginnings::{checked, tables};
use test_kit::texts::{FIRST, SALES};
use view_pool::PlainView;

/// Whether a strand begins with the program.
fn begins_first(alloc: Global, strand: &Strand<PlainView>) -> bool {
    match strand.begins_behind(alloc) {
        Ok(place) => place.is_empty(),
        Err(_) => false,
    }
}

/// Whether a strand has no answer yet.
fn is_unfinished(alloc: Global, strand: &Strand<PlainView>) -> bool {
    matches!(&strand.answer(alloc), RunAnswer::Unfinished)
}

/// Whether a strand is to enter an instance, and none has returned.
fn is_entering(strand: &Strand<PlainView>) -> bool {
    matches!(strand.phase(), Phase::Entering) && strand.returned().is_none()
}

/// Whether a strand is known as the first one, which has done nothing, and has no answer.
fn is_first(alloc: Global, program: &Checked, strand: &Strand<PlainView>) -> bool {
    begins_first(alloc, strand)
        && is_unfinished(alloc, strand)
        && strand.name().is_empty()
        && strand.is_behind(&[])
        && !strand.is_behind(&[1])
        && is_entering(strand)
        && !strand.at_update(program)
}

/// A strand is known as the first one. Its kit has one view.
fn is_known(rt: &impl Abort, alloc: Global, program: &Checked) {
    let mut pool = pool_of(rt, alloc, program);
    let kit = taken(rt, program, &mut pool);
    let strand = begin(rt, alloc, program, kit);
    assert!(rt; is_first(alloc, program, &strand));
    assert!(rt; strand.close().len() == 1);
}

#[test]
fn names_of_strands(rt: HostRuntime) {
    let tables = tables(rt.alloc(), SALES).expect(&rt, "tables");
    let program = checked(rt.alloc(), FIRST, &tables).expect(&rt, "a program");
    is_known(&rt, rt.alloc(), &program);
}
