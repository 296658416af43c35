//! A strand that is given no kit at some of its calls for one: its answer stays, and as many instances go unrecorded.
ghost use Rattle.std.specs.Prelude.{◌≡◌, ◌+◌, ◌≤◌, suc, length, List, Contains, []};
ghost use Rattle.monoid_laws.specs.declared.Kind.{Kind};

use super::answers::answer_text;
use super::driving::{Input, are_monoids, begin};
use super::owner::{Tried, try_program};
use frames::strand::Strand;
use linked_program::checked::Checked;
use positions::answer::RunAnswer;
use positions::phase::Phase;
use std::alloc::Global;
use std::process::Abort;
use test_kit::beginnings::kits;
use test_kit::texts::NESTED_READS;
use view_pool::{Kit, KitSource, PlainView, Pool};

/// More small steps than the program takes.
const STEPS: usize = 300;

/// A pool that gives no kit at the calls whose bits are set, the lowest one that of the next call.
#[derive(Drop)]
struct Sparing {
    pool: Pool<Kit<PlainView>>,
    refused: usize,
}

impl KitSource<Kit<PlainView>> for Sparing {
    ghost gives = { λ k s. Contains s.pool.kits k };

    ghost fits = { λ k s. Unit {0} };

    ghost free = { λ s. length s.pool.kits };

    ghost total = { λ s. s.pool.total };

    ghost lacks = { λ s. Unit {0} };

    fn take(&mut self) -> Option<Kit<PlainView>> {
        let is_refused = self.refused % 2 == 1;
        self.refused /= 2;
        if is_refused {
            return None;
        }
        KitSource::take(&mut self.pool)
    }

    fn give(&mut self, kit: Kit<PlainView>) -> Result<(), Kit<PlainView>> {
        KitSource::give(&mut self.pool, kit)
    }
}

/// A kit for each of the strand's layers, none of which is refused so far.
fn all_kits(rt: &impl Abort, alloc: Global, program: &Checked) -> Sparing
    ensures given { (k : List Kind) → Contains result.pool.kits k → k ≡ program.now.kinds }
    ensures all { length result.pool.kits ≡ result.pool.total }
{
    let kits = kits(alloc, program.kinds(), 3).expect(rt, "memory");
    Sparing {
        pool: Pool::new(kits),
        refused: 0,
    }
}

/// A kit of these, which are all there.
fn first_kit(rt: &impl Abort, program: &Checked, kits: &mut Sparing) -> Kit<PlainView>
    requires given { (k : List Kind) → Contains kits.old.pool.kits k → k ≡ program.now.kinds }
    requires all { length kits.old.pool.kits ≡ kits.old.pool.total }
    ensures kinds { result ≡ program.now.kinds }
    ensures given { (k : List Kind) → Contains kits.new.pool.kits k → k ≡ program.now.kinds }
    ensures room { suc (length kits.new.pool.kits) ≤ kits.new.pool.total }
{
    match kits.take() {
        Some(kit) => kit,
        None => panic!(rt; "no kit is free"),
    }
}

/// One small step, where there are no records. A spawned child is called.
fn step(
    rt: &impl Abort,
    alloc: Global,
    input: Input<'_>,
    strand: &mut Strand<PlainView>,
    kits: &mut Sparing,
)
    requires empty { input.records.now ≡ [] }
    requires kinds { strand.old.layer.kinds ≡ input.program.now.kinds }
    requires given { (k : List Kind) → Contains kits.old.pool.kits k → k ≡ input.program.now.kinds }
    requires room { suc (length strand.old.lower) + length kits.old.pool.kits ≤ kits.old.pool.total }
    ensures kinds { strand.new.layer.kinds ≡ input.entry.program.now.kinds }
    ensures given { (k : List Kind) → Contains kits.new.pool.kits k → k ≡ input.entry.program.now.kinds }
    ensures room { suc (length strand.new.lower) + length kits.new.pool.kits ≤ kits.new.pool.total }
{
    let Input {
        program,
        tables,
        records,
    } = input;
    are_monoids(program);
    let stepped = strand.advance(alloc, program, tables, records, kits);
    let _ = stepped.expect(rt, "memory");
    if let Phase::AtSpawn = strand.phase() {
        strand.inline();
    }
}

/// Small steps to the end.
fn go_on(
    rt: &impl Abort,
    alloc: Global,
    input: Input<'_>,
    strand: &mut Strand<PlainView>,
    kits: &mut Sparing,
)
    requires empty { input.records.now ≡ [] }
    requires kinds { strand.old.layer.kinds ≡ input.program.now.kinds }
    requires given { (k : List Kind) → Contains kits.old.pool.kits k → k ≡ input.program.now.kinds }
    requires room { suc (length strand.old.lower) + length kits.old.pool.kits ≤ kits.old.pool.total }
{
    for _ in 0..STEPS {
        step(rt, alloc, input, strand, kits);
    }
}

/// How many instances a run has executed, and how many went unrecorded.
fn counts(answer: &RunAnswer) -> (u64, u64) {
    match answer {
        RunAnswer::Finished {
            executed,
            unrecorded,
            ..
        } => (*executed, *unrecorded),
        _ => (0, 0),
    }
}

/// Four instances are executed by a run that is given no kit at these of their calls, and all but so many have a record then.
fn go_unrecorded(rt: &impl Abort, alloc: Global, input: Input<'_>, refused: usize, unrecorded: u64)
    requires empty { input.records.now ≡ [] }
{
    let mut kits = all_kits(rt, alloc, input.program);
    let kit = first_kit(rt, input.program, &mut kits);
    kits.refused = refused;
    let mut strand = begin(rt, alloc, input.program, kit);
    go_on(rt, alloc, input, &mut strand, &mut kits);
    let (answer, made) = strand.end(alloc, &mut kits);
    let text = answer_text(rt, alloc, input.program.program(), &answer);
    let found = (text.as_str(), counts(&answer), made.len());
    assert!(rt;
        is_answered(found, unrecorded) && is_home(&kits),
        "{refused}"
    );
}

/// Whether all calls for a kit were made that are refused one, and all kits are free.
fn is_home(kits: &Sparing) -> bool {
    kits.refused == 0 && kits.pool.free() == 3
}

/// Whether a run's answer, its counts and its number of records are the program's, where so many instances have no record.
fn is_answered(found: (&str, (u64, u64), usize), unrecorded: u64) -> bool {
    let (text, counts, records) = found;
    text == "131 [Int(131)]"
        && counts.0 == 4
        && counts.1 == unrecorded
        && (records as u64).wrapping_add(unrecorded) == 4
}

/// The calls of each run as bits, and how many of them are set.
const CALLS: [(usize, u64); 16] = [
    (0, 0),
    (1, 1),
    (2, 1),
    (3, 2),
    (4, 1),
    (5, 2),
    (6, 2),
    (7, 3),
    (8, 1),
    (9, 2),
    (10, 2),
    (11, 3),
    (12, 2),
    (13, 3),
    (14, 3),
    (15, 4),
];

/// Runs that are given no kit at any calls, over no records.
pub fn all_go_unrecorded(rt: &impl Abort, alloc: Global, input: Input<'_>)
    requires empty { input.records.now ≡ [] }
{
    for calls in &CALLS {
        go_unrecorded(rt, alloc, input, calls.0, calls.1);
    }
}

#[test]
fn no_kit_at_any_calls(rt: HostRuntime) {
    try_program(&rt, rt.alloc(), NESTED_READS, Tried::Unrecorded);
}
