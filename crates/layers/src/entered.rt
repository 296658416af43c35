// The procedures that a layer's instances entered, as a record keeps them.
ghost use Rattle.std.specs.Prelude.{◌≡◌, ◌++◌, ℕ, IfOk, IfSome, List, OnOk, Some, slice_get};
ghost use Rattle.meaning.specs.Tree.{Name};
ghost use Rattle.instance_records.specs.Parts.{entries_in};
ghost use Rattle.positions.specs.Tallies.{entries_from};
ghost use Rattle.layers.specs.Recordings.{entry_of};

use crate::layer::Layer;
use instance_records::entries::Entries;
use linked_program::checked::Checked;
use std::alloc::{AllocError, Global};
use view_pool::View;

impl<V: View> Layer<V> {
    /// The numbers of the procedures that were entered, each with its revision number. A list of two is shared with the last one of two, where
    /// they are the same, and is the last one from then on.
    #[inline(always)]
    pub(crate) fn entries(
        &self,
        alloc: Global,
        program: &Checked,
        last: &mut Entries,
    ) -> Result<Entries, AllocError>
        ensures entries { IfOk result (λ es.
            entries_in es ≡ entries_from 0 program.now.revisions self.now.entered) }
    {
        entries(alloc, &self.entered, program, last)
    }
}

/// The numbers of the procedures whose flags are up, each with its revision number. That of the only one is put into its list at once.
#[inline(always)]
fn entries(
    alloc: Global,
    flags: &[bool],
    program: &Checked,
    last: &mut Entries,
) -> Result<Entries, AllocError>
    ensures entries { IfOk result (λ es.
        entries_in es ≡ entries_from 0 program.now.revisions flags.now) }
{
    match only_up(flags) {
        Some(procedure) => Ok(entry_of_one(procedure, program)),
        None => entries_of_all(alloc, flags, program, last),
    }
}

/// The number of the only flag that is up; none where there is none or another one.
#[inline(always)]
fn only_up(flags: &[bool]) -> Option<usize>
    ensures only { (es : List (Name × ℕ)) → IfSome result (λ i. entries_from 0 es flags.now ≡ entry_of i (slice_get es i)) }
{
    let mut found = None;
    for i in 0..flags.len() {
        if flags[i] {
            if found.is_some() {
                return None;
            }
            found = Some(i);
        }
    }
    found
}

/// The number of a procedure, where there is one, with its revision number, in a list. It takes no memory.
#[inline(always)]
fn entry_of_one(procedure: usize, program: &Checked) -> Entries
    ensures entry { entries_in result ≡ entry_of procedure (slice_get program.now.revisions procedure) }
{
    match program.revision_at(procedure) {
        Some(revision) => Entries::One((procedure, revision)),
        None => Entries::Nothing,
    }
}

/// The numbers of the procedures whose flags are up, however many, each with its revision number.
#[inline(never)]
fn entries_of_all(
    alloc: Global,
    flags: &[bool],
    program: &Checked,
    last: &mut Entries,
) -> Result<Entries, AllocError>
    ensures entries { IfOk result (λ es.
        entries_in es ≡ entries_from 0 program.now.revisions flags.now) }
{
    if let Some(pair) = pair_up(flags, program) {
        return entries_of_two(alloc, &pair, last);
    }
    entries_of_many(alloc, flags, program)
}

/// A list of these two entries: a second owner of the last one where that is the same, else it is the last one from then on.
#[inline(always)]
fn entries_of_two(
    alloc: Global,
    pair: &[(usize, u64); 2],
    last: &mut Entries,
) -> Result<Entries, AllocError>
    ensures entries { IfOk result (λ es. entries_in es ≡ pair.now) }
{
    if let Some(entries) = last.share_two(pair) {
        return Ok(entries);
    }
    let entries = Entries::from_slice(alloc, pair)?;
    if let Some(more) = entries.share_two(pair) {
        *last = more;
    }
    Ok(entries)
}

/// The numbers of the only two procedures whose flags are up, each with its revision number; none where there are more or less.
#[inline(always)]
fn pair_up(flags: &[bool], program: &Checked) -> Option<[(usize, u64); 2]>
    ensures pair { IfSome result (λ pair. entries_from 0 program.now.revisions flags.now ≡ pair) }
{
    let (first, second) = two_up(flags)?;
    let revision = program.revision_at(first)?;
    let other = program.revision_at(second)?;
    Some([(first, revision), (second, other)])
}

/// The numbers of the only two flags that are up; none where there are more or less.
#[inline(always)]
fn two_up(flags: &[bool]) -> Option<(usize, usize)>
    ensures two { (es : List (Name × ℕ)) → IfSome result (λ p. entries_from 0 es flags.now
        ≡ entry_of p.0 (slice_get es p.0) ++ entry_of p.1 (slice_get es p.1)) }
{
    let mut older = None;
    let mut newer = None;
    for i in 0..flags.len() {
        if flags[i] {
            if older.is_some() {
                return None;
            }
            older = newer;
            newer = Some(i);
        }
    }
    both(older, newer)
}

/// Two numbers, where both are there.
#[inline(always)]
fn both(older: Option<usize>, newer: Option<usize>) -> Option<(usize, usize)>
    ensures older { IfSome result (λ p. older ≡ Some p.0) }
    ensures newer { IfSome result (λ p. newer ≡ Some p.1) }
{
    Some((older?, newer?))
}

/// The numbers of the procedures whose flags are up, however many, put behind one another.
fn entries_of_many(alloc: Global, flags: &[bool], program: &Checked) -> Result<Entries, AllocError>
    ensures entries { IfOk result (λ es.
        entries_in es ≡ entries_from 0 program.now.revisions flags.now) }
{
    let mut entries = Entries::Nothing;
    for procedure in 0..flags.len() {
        if flags[procedure] {
            push_entry(alloc, &mut entries, procedure, program)?;
        }
    }
    entries.shrink_to_fit();
    Ok(entries)
}

/// Puts the number of a procedure, where there is one, with its revision number behind the others.
fn push_entry(
    alloc: Global,
    entries: &mut Entries,
    procedure: usize,
    program: &Checked,
) -> Result<(), AllocError>
    ensures pushed { OnOk result (entries_in entries.new
        ≡ entries_in entries.old ++ entry_of procedure (slice_get program.now.revisions procedure)) }
{
    if let Some(revision) = program.revision_at(procedure) {
        entries.push(alloc, (procedure, revision))?;
    }
    Ok(())
}
