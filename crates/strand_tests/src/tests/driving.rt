//! How a program is run on one strand, whose spawned children go different ways.
ghost use Rattle.std.specs.Prelude.{◌≡◌, [], All};
ghost use Rattle.monoid_laws.specs.Kinds.{IsMonoid};

use frames::strand::Strand;
use input_tables::Tables;
use linked_program::checked::Checked;
use positions::phase::{Paused, Phase};
use rerun_records::records::Records;
use rules_theory::checked_programs_keep_the_rules;
use running_ahead::spawning::Spawning;
use std::alloc::Global;
use std::process::Abort;
use strand_moves::task::Task;
use view_pool::{Kit, PlainView, Pool};

/// More small steps than any of the programs takes.
const STEPS: usize = 2000;

/// A program, the tables that it runs on, and the records that may answer it, of which there are none. `owner` has them.
#[derive(Clone, Copy)]
pub struct Input<'a> {
    pub program: &'a Checked,
    pub tables: &'a Tables,
    pub records: &'a Records,
}

/// The kits of a strand that has its own: none is free.
fn no_kits(rt: &impl Abort, alloc: Global) -> Pool<Kit<PlainView>>
    ensures none { result.kits ≡ [] }
    ensures total { result.total ≡ 1 }
{
    let kit: Kit<PlainView> = Kit::reset(Vec::new(alloc));
    let mut pool = Pool::new(vec![in alloc; kit].expect(rt, "memory"));
    let _ = pool.take();
    pool
}

/// What the rules of the language give: the reducers of a checked program are monoids.
pub fn are_monoids(program: &Checked)
    ensures monoids { All IsMonoid program.now.kinds }
{
    // What the program's type keeps: it breaks no rule, so the law makes the clause of it.
    program.clean();
    program.linked();
    program.revised();
    checked_programs_keep_the_rules();
}

/// The strand of a program's beginning, with a kit.
pub fn begin(
    rt: &impl Abort,
    alloc: Global,
    program: &Checked,
    kit: Kit<PlainView>,
) -> Strand<PlainView>
    requires kit { kit ≡ program.now.kinds }
    ensures kinds { result.layer.kinds ≡ program.now.kinds }
    ensures lower { result.lower ≡ [] }
{
    match Strand::first(alloc, program, kit) {
        Ok(strand) => strand,
        Err(_) => panic!(rt; "memory"),
    }
}

/// What becomes of a spawned child: it is a call; it is one after its parent was taken out and put back; it runs alone, and then its
/// parent goes on; or it is a call of a strand that does what it can in one go before each small step, and ends that at each spawn, or
/// calls the child within it.
#[derive(Clone, Copy)]
pub enum Child {
    Called,
    PutBack,
    Alone,
    Ahead,
    AllAhead,
}

/// Whether each spawned child is called within what is done in one go.
#[derive(Drop)]
struct Spawns {
    called: bool,
}

impl Spawning for Spawns {
    fn is_called(&mut self) -> bool {
        self.called
    }
}

/// The continuation at a spawn; there has to be one.
pub fn parent(rt: &impl Abort, alloc: Global, strand: &mut Strand<PlainView>) -> Task
    ensures kinds { strand.new.layer.kinds ≡ strand.old.layer.kinds }
    ensures lower { strand.new.lower ≡ strand.old.lower }
{
    match strand.phase() {
        Phase::AtSpawn => {
            // At a spawn a parent waits, so there is one to take out.
            strand.ready();
            strand.detach(alloc)
        }
        _ => panic!(rt; "no continuation"),
    }
}

/// What a strand that does what it can in one go does before its next small step.
fn go_ahead(alloc: Global, input: Input<'_>, strand: &mut Strand<PlainView>, child: Child)
    requires empty { input.records.now ≡ [] }
    requires kinds { strand.old.layer.kinds ≡ input.program.now.kinds }
    ensures kinds { strand.new.layer.kinds ≡ strand.old.layer.kinds }
    ensures lower { strand.new.lower ≡ strand.old.lower }
{
    let called = match child {
        Child::Ahead => false,
        Child::AllAhead => true,
        _ => return,
    };
    let Input {
        program,
        tables,
        records,
    } = input;
    strand.run_ahead(alloc, program, tables, records, &mut Spawns { called });
}

/// At a spawn: the child goes that way.
fn spawn(
    rt: &impl Abort,
    alloc: Global,
    strand: &mut Strand<PlainView>,
    child: Child,
    parents: &mut Vec<Task>,
)
    ensures kinds { strand.new.layer.kinds ≡ strand.old.layer.kinds }
    ensures lower { strand.new.lower ≡ strand.old.lower }
{
    if let Phase::AtSpawn = strand.phase() {
        match child {
            Child::Called | Child::Ahead | Child::AllAhead => strand.inline(),
            Child::PutBack => {
                let parent = strand.detach(alloc);
                strand.attach(parent);
            }
            Child::Alone => parents.push(strand.detach(alloc)).expect(rt, "memory"),
        }
    }
}

/// Where a child that runs alone has returned: its parent goes on.
fn go_back(strand: &mut Strand<PlainView>, parents: &mut Vec<Task>)
    ensures kinds { strand.new.layer.kinds ≡ strand.old.layer.kinds }
    ensures lower { strand.new.lower ≡ strand.old.lower }
{
    if strand.returned().is_some() {
        if let Some(parent) = parents.pop() {
            strand.resume(parent);
        }
    }
}

/// One small step, where there are no records and no free kits.
fn advance(
    rt: &impl Abort,
    alloc: Global,
    input: Input<'_>,
    strand: &mut Strand<PlainView>,
    pool: &mut Pool<Kit<PlainView>>,
)
    requires empty { input.records.now ≡ [] }
    requires kinds { strand.old.layer.kinds ≡ input.program.now.kinds }
    requires lower { strand.old.lower ≡ [] }
    requires none { pool.old.kits ≡ [] }
    requires total { pool.old.total ≡ 1 }
    ensures kinds { strand.new.layer.kinds ≡ strand.old.layer.kinds }
    ensures lower { strand.new.lower ≡ [] }
    ensures none { pool.new.kits ≡ [] }
    ensures total { pool.new.total ≡ 1 }
{
    let Input {
        program,
        tables,
        records,
    } = input;
    are_monoids(program);
    let stepped = strand.advance(alloc, program, tables, records, pool);
    let _ = stepped.expect(rt, "memory");
}

/// One small step, and what is to be done before it, and where it comes to a spawn or a return.
fn step(
    rt: &impl Abort,
    alloc: Global,
    input: Input<'_>,
    strand: &mut Strand<PlainView>,
    pool: &mut Pool<Kit<PlainView>>,
    child: Child,
    parents: &mut Vec<Task>,
)
    requires empty { input.records.now ≡ [] }
    requires kinds { strand.old.layer.kinds ≡ input.program.now.kinds }
    requires lower { strand.old.lower ≡ [] }
    requires none { pool.old.kits ≡ [] }
    requires total { pool.old.total ≡ 1 }
    ensures kinds { strand.new.layer.kinds ≡ strand.old.layer.kinds }
    ensures lower { strand.new.lower ≡ [] }
    ensures none { pool.new.kits ≡ [] }
    ensures total { pool.new.total ≡ 1 }
{
    go_ahead(alloc, input, strand, child);
    advance(rt, alloc, input, strand, pool);
    spawn(rt, alloc, strand, child, parents);
    go_back(strand, parents);
}

/// The strand goes on to a point at which it pauses.
pub fn to_pause(rt: &impl Abort, alloc: Global, input: Input<'_>, strand: &mut Strand<PlainView>)
    requires empty { input.records.now ≡ [] }
    requires kinds { strand.old.layer.kinds ≡ input.program.now.kinds }
    requires lower { strand.old.lower ≡ [] }
    ensures kinds { strand.new.layer.kinds ≡ strand.old.layer.kinds }
    ensures lower { strand.new.lower ≡ [] }
{
    let mut pool = no_kits(rt, alloc);
    for _ in 0..STEPS {
        if !matches!(strand.pause(input.program), Paused::Working) {
            break;
        }
        advance(rt, alloc, input, strand, &mut pool);
    }
}

/// The number of the first step before which the strand was at its end.
fn first_at_end(
    program: &Checked,
    strand: &Strand<PlainView>,
    found: usize,
    number: usize,
) -> usize {
    match strand.pause(program) {
        Paused::Finished | Paused::Faulted => found.min(number),
        _ => found,
    }
}

/// The strand goes on to its end, or to the point at which it waits for others. After how many steps it was at its end.
pub fn go_on(
    rt: &impl Abort,
    alloc: Global,
    input: Input<'_>,
    strand: &mut Strand<PlainView>,
    child: Child,
) -> usize
    requires empty { input.records.now ≡ [] }
    requires kinds { strand.old.layer.kinds ≡ input.program.now.kinds }
    requires lower { strand.old.lower ≡ [] }
    ensures kinds { strand.new.layer.kinds ≡ strand.old.layer.kinds }
    ensures lower { strand.new.lower ≡ [] }
{
    let mut pool = no_kits(rt, alloc);
    let mut parents = Vec::new(alloc);
    let mut steps = STEPS;
    for i in 0..STEPS {
        steps = first_at_end(input.program, strand, steps, i);
        step(rt, alloc, input, strand, &mut pool, child, &mut parents);
    }
    steps
}
