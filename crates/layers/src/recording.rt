//! What is kept of a memo instance whose layer is open, and what a record keeps of the layer once it is over.
ghost use Rattle.std.specs.Prelude.{true, false, suc, ◌≡◌, ◌<◌, ◌≤◌, ◌++◌, IfOk, OnOk, length, map};
ghost use Rattle.monoid_laws.specs.Worth.{Worth};
ghost use Rattle.monoid_laws.specs.Kinds.{meaning};
ghost use Rattle.hypermaps.specs.Layer.{IsAt};
ghost use Rattle.evaluation.specs.Short.{note_of};
ghost use Rattle.record_theory.specs.Record.{touched};
ghost use Rattle.record_theory.specs.Named.{AreValuesFrom};
ghost use Rattle.instance_records.specs.Readings.{all_of};
ghost use Rattle.instance_records.specs.ShortLists.{items_in};
ghost use Rattle.instance_records.specs.Parts.{arguments_in, entries_in};
ghost use Rattle.instance_records.specs.Gifts.{given_by};
ghost use Rattle.record_theory.specs.Same.{same_note};
ghost use Rattle.positions.specs.Layers.{kept_reads as kept_reads_of};
ghost use Rattle.positions.specs.Values.{once, put_note};
ghost use Rattle.positions.specs.Tallies.{touched_from, touched_at, entries_from};
ghost use Rattle.layers.specs.Gatherings.{gathered_in};
ghost use Rattle.layers.specs.Recordings.{recording_of, recorded};

use crate::few_values::{kept_value, value_of_one, values_of_some, values_of_used};
use crate::gathered::Gathered;
use crate::layer::Layer;
use crate::rising::are_rising;
use evaluation::note::Note;
use evaluation::notes::Notes;
use evaluation::reading::{Reading, readings};
use hypermaps::Hypermap;
use indexmap::IndexSet;
use instance_records::arguments::Arguments;
use instance_records::entries::Entries;
use instance_records::gift::Gift;
use instance_records::readings::Readings;
use instance_records::record::Record;
use instance_records::short_list::ShortList;
use linked_program::checked::Checked;
use monoid_laws::{Kind, Val};
use positions::heights::height;
use positions::readings::is_among;
use std::alloc::{AllocError, Global};
use std::marker::Model;
use view_pool::View;

/// A memo instance with a layer of its own: its procedure, its arguments, how many levels there are below it, and how long its
/// name is.
#[derive(Drop)]
pub struct Opened {
    procedure: usize,
    arguments: Arguments,
    left: u32,
    depth: usize,
}

impl Model for Opened {
    ghost use Rattle.positions.specs.Tallies.{PlainOpened};
    ghost use Rattle.instance_records.specs.Parts.{arguments_in};

    ghost Value = { PlainOpened };

    ghost view = { λ o. record { procedure = o.procedure; arguments = arguments_in o.arguments; left = o.left; depth = o.depth } };
}

impl Opened {
    /// An instance of that procedure with these arguments, which are copied; refused for want of memory alone.
    #[inline(always)]
    pub fn new(
        alloc: Global,
        procedure: usize,
        arguments: &[i64],
        left: u32,
        depth: usize,
    ) -> Result<Opened, AllocError>
        ensures opened { IfOk result (λ o.
            o ≡ record { procedure = procedure; arguments = arguments.now; left = left; depth = depth }) }
    {
        Ok(Opened {
            procedure,
            arguments: Arguments::from_slice(alloc, arguments)?,
            left,
            depth,
        })
    }

    /// Its procedure, its arguments, and how many levels there are below it.
    #[inline(always)]
    pub(crate) fn into_parts(self) -> (usize, Arguments, u32)
        ensures procedure { result.0 ≡ self.procedure }
        ensures arguments { arguments_in result.1 ≡ self.arguments }
        ensures left { result.2 ≡ self.left }
    {
        let Opened {
            procedure,
            arguments,
            left,
            depth: _,
        } = self;
        (procedure, arguments, left)
    }

    /// How long its name is.
    pub(crate) fn depth(&self) -> usize
        ensures depth { result ≡ self.now.depth }
    {
        self.depth
    }
}

/// The values of the reducers that a layer touched, each reading once, the procedures entered, and how many instances were
/// nested at most, main counted.
#[derive(Drop)]
pub(crate) struct Recording {
    contribution: ShortList<Gift>,
    reads: Readings,
    entered: Entries,
    levels: u32,
}

impl Model for Recording {
    ghost use Rattle.std.specs.Prelude.{map};
    ghost use Rattle.record_theory.specs.Record.{touched};
    ghost use Rattle.instance_records.specs.ShortLists.{items_in};
    ghost use Rattle.instance_records.specs.Parts.{entries_in};
    ghost use Rattle.instance_records.specs.Gifts.{given_by};
    ghost use Rattle.layers.specs.Recordings.{PlainRecording};

    ghost Value = { PlainRecording };

    ghost view = { λ r. record {
      contribution = map touched (map given_by (items_in r.contribution));
      reads = r.reads;
      entered = entries_in r.entered;
      levels = r.levels;
    } };
}

impl Recording {
    /// What a record keeps of that layer, of its parts. It takes no memory.
    #[inline(always)]
    pub(crate) fn new<V: View>(
        _layer: &Layer<V>,
        _program: &Checked,
        contribution: ShortList<Gift>,
        reads: Readings,
        entered: Entries,
        levels: u32,
    ) -> Recording
        requires touched { map touched (map given_by (items_in contribution)) ≡ touched_from 0 _layer.now.kinds _layer.now.worths }
        requires kept { reads ≡ kept_reads_of _layer.now }
        requires entries { entries_in entered ≡ entries_from 0 _program.now.revisions _layer.now.entered }
        requires levels { levels ≡ suc _layer.now.deepest }
        ensures recording { result ≡ recording_of _program.now.revisions _layer.now }
    {
        Recording {
            contribution,
            reads,
            entered,
            levels,
        }
    }

    /// Lends what was read.
    pub(crate) fn reads(&self) -> &Readings
        ensures reads { result.now ≡ self.now.reads }
    {
        &self.reads
    }

    /// The record of an instance that is over with that value. It takes no memory.
    #[inline(always)]
    pub(crate) fn record(self, opened: Opened, value: i64) -> Record
        ensures record { result ≡ recorded self opened value }
    {
        let Opened {
            procedure,
            arguments,
            left,
            depth: _,
        } = opened;
        let Recording {
            contribution,
            reads,
            entered,
            levels,
        } = self;
        Record::of_values(
            procedure,
            arguments,
            value,
            contribution,
            reads,
            entered,
            height(levels, left),
        )
    }
}

/// How many readings are few enough to look through them for each, which is quicker than a hash.
const FEW: usize = 16;

impl<V: View> Layer<V> {
    /// How many instances were nested at most, main counted; refused past the limit.
    #[inline(always)]
    pub(crate) fn levels(&self) -> Result<u32, AllocError>
        ensures levels { IfOk result (λ n. n ≡ suc self.now.deepest) }
    {
        match self.deepest.checked_add(1) {
            Some(levels) => Ok(levels),
            None => Err(AllocError),
        }
    }

    /// What a record keeps of the layer, where the last list of two procedures may be shared. Want of memory is the only error.
    #[inline(always)]
    pub(crate) fn recording(
        &self,
        alloc: Global,
        program: &Checked,
        last: &mut Entries,
    ) -> Result<Recording, AllocError>
        requires kinds { self.now.kinds ≡ program.now.kinds }
        ensures recording { IfOk result (λ r. r ≡ recording_of program.now.revisions self.now) }
        ensures values { IfOk result (λ r. AreValuesFrom 0 self.now.kinds r.contribution) }
    {
        let levels = self.levels()?;
        let reads = self.reads(alloc)?;
        let entered = self.entries(alloc, program, last)?;
        let contribution = self.touched(alloc, program)?;
        Ok(Recording::new(self, program, contribution, reads, entered, levels))
    }

    /// Copies of the values that are not the identities, each with its reducer's number. Those of one reducer or two are put into their
    /// list at once.
    #[inline(always)]
    pub(crate) fn touched(
        &self,
        alloc: Global,
        program: &Checked,
    ) -> Result<ShortList<Gift>, AllocError>
        requires kinds { self.now.kinds ≡ program.now.kinds }
        ensures touched { IfOk result (λ c.
            map touched (map given_by (items_in c)) ≡ touched_from 0 self.now.kinds self.now.worths) }
        ensures values { IfOk result (λ c.
            AreValuesFrom 0 self.now.kinds (map touched (map given_by (items_in c)))) }
    {
        let kinds = program.kinds();
        match kinds.len() {
            1 => value_of_one(alloc, &self.hypermap, kinds),
            2 => {
                if self.hypermap.used_count() == 2 {
                    values_of_used(alloc, &self.hypermap, kinds)
                } else {
                    values_of_some(alloc, &self.hypermap, kinds)
                }
            }
            _ => contribution_of_many(alloc, &self.hypermap, kinds),
        }
    }

    /// Its own readings, each once, and then those that it shares. Want of memory is the only error.
    #[inline(always)]
    pub(crate) fn reads(&self, alloc: Global) -> Result<Readings, AllocError>
        ensures kept { IfOk result (λ r. r ≡ kept_reads_of self.now) }
    {
        kept_reads(alloc, &self.notes, &self.shared)
    }
}

/// Copies of the values that are not the identities, gathered one after another.
#[inline(never)]
fn contribution_of_many<V: View>(
    alloc: Global,
    hypermap: &Hypermap<V>,
    kinds: &[Kind],
) -> Result<ShortList<Gift>, AllocError>
    requires kinds { hypermap.now.kinds ≡ kinds.now }
    ensures touched { IfOk result (λ c.
        map touched (map given_by (items_in c)) ≡ touched_from 0 hypermap.now.kinds hypermap.now.worths) }
    ensures values { IfOk result (λ c.
        AreValuesFrom 0 hypermap.now.kinds (map touched (map given_by (items_in c)))) }
{
    let _ = hypermap.len();
    let mut values = Gathered::new(alloc);
    for reducer in 0..kinds.len() {
        push_touched(alloc, &mut values, hypermap, reducer, &kinds[reducer])?;
    }
    Ok(values.into_list())
}

/// Puts a copy of a reducer's value behind the others, unless it is the identity.
fn push_touched<V: View>(
    alloc: Global,
    values: &mut Gathered,
    hypermap: &Hypermap<V>,
    reducer: usize,
    kind: &Kind,
) -> Result<(), AllocError>
    requires there { reducer < length hypermap.now.kinds }
    requires kind { IsAt hypermap.now.kinds reducer kind.now }
    ensures pushed { (w : Worth) → IsAt hypermap.now.worths reducer w → OnOk result
        (map touched (map given_by (gathered_in values.new))
        ≡ map touched (map given_by (gathered_in values.old)) ++ touched_at reducer kind.now w) }
{
    let _ = hypermap.len();
    match hypermap.used_value(reducer)? {
        Some(value) => push_value(alloc, values, reducer, kind, value, hypermap.used_count()),
        None => Ok(()),
    }
}

/// Puts a value behind the others, which are so many at most, unless it is the identity.
fn push_value(
    alloc: Global,
    values: &mut Gathered,
    reducer: usize,
    kind: &Kind,
    value: Val,
    most: usize,
) -> Result<(), AllocError>
    ensures pushed { OnOk result (map touched (map given_by (gathered_in values.new))
        ≡ map touched (map given_by (gathered_in values.old)) ++ touched_at reducer kind.now (meaning value)) }
{
    match kept_value(alloc, reducer, kind, value)? {
        Some(gift) => values.put(alloc, gift, most),
        None => Ok(()),
    }
}

/// A layer's own readings, each once, and then those that it shares. Those of an instance that multiplies two cells are looked
/// through at once.
#[inline(always)]
#[tactic(auto, using(crate::proofs::Marks::two_kept))]
fn kept_reads(alloc: Global, notes: &Notes, shared: &[Readings]) -> Result<Readings, AllocError>
    ensures kept { IfOk result (λ r. r ≡ once notes.now ++ all_of shared.now) }
{
    let found = notes.readings();
    if shared.is_empty() && are_of_few_columns(found) {
        return Ok(few_reads(found));
    }
    all_reads(alloc, notes, shared)
}

/// No more than two readings. It takes no memory.
#[inline(always)]
pub(crate) fn few_reads(found: &[Reading]) -> Readings
    requires few { length found.now ≤ 2 }
    ensures same { result ≡ map note_of found.now }
{
    match found.len() {
        0 => Readings::nothing(),
        1 => Readings::of_one(found[0]),
        _ => Readings::of_two([found[0], found[1]]),
    }
}

/// A layer's own readings, each once, and then those that it shares, however many. Those of one instance alone are handed on as they are.
#[inline(never)]
fn all_reads(alloc: Global, notes: &Notes, shared: &[Readings]) -> Result<Readings, AllocError>
    ensures kept { IfOk result (λ r. r ≡ once notes.now ++ all_of shared.now) }
{
    if notes.is_empty() && shared.len() == 1 {
        return shared[0].share();
    }
    let own = distinct_readings(alloc, notes.readings())?;
    let parts = shares(alloc, shared)?;
    Readings::new(alloc, own, parts)
}

/// These readings once more, by reference and without spare room.
fn shares(alloc: Global, shared: &[Readings]) -> Result<Vec<Readings>, AllocError>
    ensures same { IfOk result (λ parts. parts.items ≡ shared.now) }
{
    let mut parts = Vec::new(alloc);
    parts.reserve_exact(shared.len())?;
    for part in shared {
        parts.push(part.share()?)?;
    }
    Ok(parts)
}

/// Each reading once, in the order in which they were first made.
fn distinct_readings(alloc: Global, found: &[Reading]) -> Result<ShortList<Reading>, AllocError>
    ensures once { IfOk result (λ rs. map note_of (items_in rs) ≡ once (map note_of found.now)) }
{
    if are_rising(found) {
        return ShortList::from_slice(alloc, found);
    }
    if found.len() > FEW {
        let seen = distinct(alloc, found)?;
        let own = readings(alloc, seen.as_slice())?;
        return Ok(ShortList::new(own));
    }
    if are_distinct(found) {
        return ShortList::from_slice(alloc, found);
    }
    distinct_of_few(alloc, found)
}

/// Whether no reading stands twice among these, which are few.
fn are_distinct(found: &[Reading]) -> bool
    ensures distinct { result ≡ true → once (map note_of found.now) ≡ map note_of found.now }
{
    for i in 0..found.len() {
        if is_among(&found[..i], &found[i]) {
            return false;
        }
    }
    true
}

/// Whether these are no more than two readings, and two are of cells in different columns.
#[inline(always)]
#[tactic(auto, using(crate::proofs::Marks::few_once))]
pub(crate) fn are_of_few_columns(found: &[Reading]) -> bool
    ensures few { result ≡ true → length found.now ≤ 2 }
    ensures distinct { result ≡ true → once (map note_of found.now) ≡ map note_of found.now }
{
    if found.len() != 2 {
        return found.len() < 2;
    }
    let first = &found[0];
    let second = &found[1];
    are_apart(second, first)
}

/// Whether these are readings of cells in different columns.
#[inline(always)]
#[tactic(auto, using(crate::proofs::Marks::apart_cells))]
fn are_apart(left: &Reading, right: &Reading) -> bool
    ensures apart { result ≡ true → same_note (note_of left.now) (note_of right.now) ≡ false }
{
    match left {
        Reading::Cell { column, .. } => match right {
            Reading::Cell {
                column: other_column,
                ..
            } => *column != *other_column,
            _ => false,
        },
        _ => false,
    }
}

/// The readings, each once; by looking through those before it.
fn distinct_of_few(alloc: Global, found: &[Reading]) -> Result<ShortList<Reading>, AllocError>
    ensures once { IfOk result (λ seen. map note_of (items_in seen) ≡ once (map note_of found.now)) }
{
    let mut seen = ShortList::new(Vec::new(alloc));
    for reading in found {
        mark_few(alloc, &mut seen, reading)?;
    }
    Ok(seen)
}

/// Puts in a reading, unless it is there.
fn mark_few(
    alloc: Global,
    seen: &mut ShortList<Reading>,
    reading: &Reading,
) -> Result<(), AllocError>
    ensures put { OnOk result (map note_of (items_in seen.new)
        ≡ put_note (map note_of (items_in seen.old)) (note_of reading.now)) }
{
    if is_among(seen.as_slice(), reading) {
        return Ok(());
    }
    seen.push(alloc, *reading)
}

/// The readings, each once, as notes.
fn distinct(alloc: Global, found: &[Reading]) -> Result<IndexSet<Note>, AllocError>
    ensures once { IfOk result (λ seen. seen.keys ≡ once (map note_of found.now)) }
{
    let mut seen = IndexSet::new(alloc);
    for reading in found {
        mark(&mut seen, reading.note())?;
    }
    Ok(seen)
}

/// Puts in a note, unless it is there.
fn mark(seen: &mut IndexSet<Note>, note: Note) -> Result<(), AllocError>
    ensures put { OnOk result (seen.new.keys ≡ put_note seen.old.keys note) }
{
    match seen.insert(note) {
        Ok(_) => Ok(()),
        Err(_) => Err(AllocError),
    }
}
