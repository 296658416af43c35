//! Programs on strands whose continuations are stolen: each strand has a kit of its own, and neighbours become one strand again.
ghost use Rattle.std.specs.Prelude.{◌≡◌, [], All};
ghost use Rattle.monoid_laws.specs.Kinds.{IsMonoid};

use super::answers::{answer_text, slow_text};
use super::driving::{Child, Input, are_monoids, begin, go_on, parent, to_pause};
use super::owner::{Tried, try_program};
use frames::strand::Strand;
use linked_program::checked::Checked;
use positions::phase::{Paused, Phase};
use std::alloc::Global;
use std::process::Abort;
use test_kit::beginnings::kits;
use view_pool::{Kit, PlainView, Pool};

/// How many kits there are: one for each strand, and one more.
const KITS: usize = 4;

/// The kits of a program, all free.
pub fn pool_of(rt: &impl Abort, alloc: Global, program: &Checked) -> Pool<Kit<PlainView>>
    ensures kits { All (λ k. k ≡ program.now.kinds) result.kits }
{
    Pool::new(kits(alloc, program.kinds(), KITS).expect(rt, "memory"))
}

/// A free kit.
pub fn taken(rt: &impl Abort, program: &Checked, pool: &mut Pool<Kit<PlainView>>) -> Kit<PlainView>
    requires kits { All (λ k. k ≡ program.now.kinds) pool.old.kits }
    ensures kits { All (λ k. k ≡ program.now.kinds) pool.new.kits }
    ensures kinds { result ≡ program.now.kinds }
{
    match pool.take() {
        Some(kit) => kit,
        None => panic!(rt; "no kit is free"),
    }
}

/// The strand of the continuation at a spawn, with a kit of the pool; the other strand is left with the child.
fn steal(
    rt: &impl Abort,
    alloc: Global,
    program: &Checked,
    victim: &mut Strand<PlainView>,
    pool: &mut Pool<Kit<PlainView>>,
) -> Strand<PlainView>
    requires kits { All (λ k. k ≡ program.now.kinds) pool.old.kits }
    ensures kits { All (λ k. k ≡ program.now.kinds) pool.new.kits }
    ensures kinds { result.layer.kinds ≡ program.now.kinds }
    ensures lower { result.lower ≡ [] }
    ensures victim_kinds { victim.new.layer.kinds ≡ victim.old.layer.kinds }
    ensures victim_lower { victim.new.lower ≡ victim.old.lower }
{
    let task = parent(rt, alloc, victim);
    let kit = taken(rt, program, pool);
    match Strand::stolen(alloc, program, task, kit) {
        Ok(thief) => thief,
        Err(_) => panic!(rt; "memory"),
    }
}

/// The victim goes on to its next spawn, where its continuation is stolen.
fn rob(
    rt: &impl Abort,
    alloc: Global,
    input: Input<'_>,
    victim: &mut Strand<PlainView>,
    pool: &mut Pool<Kit<PlainView>>,
) -> Strand<PlainView>
    requires empty { input.records.now ≡ [] }
    requires kits { All (λ k. k ≡ input.program.now.kinds) pool.old.kits }
    requires kinds { victim.old.layer.kinds ≡ input.program.now.kinds }
    requires lower { victim.old.lower ≡ [] }
    ensures kits { All (λ k. k ≡ input.entry.program.now.kinds) pool.new.kits }
    ensures kinds { result.layer.kinds ≡ input.entry.program.now.kinds }
    ensures lower { result.lower ≡ [] }
    ensures victim_kinds { victim.new.layer.kinds ≡ victim.old.layer.kinds }
    ensures victim_lower { victim.new.lower ≡ [] }
{
    to_pause(rt, alloc, input, victim);
    steal(rt, alloc, input.program, victim, pool)
}

/// Whether the left strand is through, and the right one waits for it.
fn are_neighbours(program: &Checked, left: &Strand<PlainView>, right: &Strand<PlainView>) -> bool {
    let is_through = match left.pause(program) {
        Paused::Returned => right.is_behind(left.name()),
        Paused::Faulted => true,
        _ => false,
    };
    is_through && matches!(right.pause(program), Paused::AtSync | Paused::Faulted)
}

/// Where a strand has a fault, its upper layers go.
fn give_up(strand: &mut Strand<PlainView>, pool: &mut Pool<Kit<PlainView>>)
    requires lower { strand.old.lower ≡ [] }
    ensures kinds { strand.new.layer.kinds ≡ strand.old.layer.kinds }
    ensures lower { strand.new.lower ≡ [] }
{
    if let Phase::Broken(_) = strand.phase() {
        strand.close_upper(pool);
    }
}

/// Puts the right neighbour behind the left strand and sends its kit home.
fn join(
    rt: &impl Abort,
    left: &mut Strand<PlainView>,
    right: Strand<PlainView>,
    pool: &mut Pool<Kit<PlainView>>,
)
    requires monoids { All IsMonoid left.old.layer.kinds }
    requires kinds { left.old.layer.kinds ≡ right.layer.kinds }
    requires lower { right.lower ≡ [] }
    ensures kinds { left.new.layer.kinds ≡ left.old.layer.kinds }
    ensures lower { left.new.lower ≡ left.old.lower }
{
    match left.phase() {
        Phase::Leaving(_) | Phase::Broken(_) => match left.join(right) {
            Ok(kit) => assert!(rt; pool.give(kit).is_ok()),
            Err(_) => panic!(rt; "memory"),
        },
        _ => panic!(rt; "the left strand isn't through"),
    }
}

/// Two neighbours, the right one first, go on as far as each can alone; then the right one may be put behind the left one.
fn go_on_beside(
    rt: &impl Abort,
    alloc: Global,
    input: Input<'_>,
    left: &mut Strand<PlainView>,
    right: &mut Strand<PlainView>,
    pool: &mut Pool<Kit<PlainView>>,
    child: Child,
)
    requires empty { input.records.now ≡ [] }
    requires kinds { left.old.layer.kinds ≡ input.program.now.kinds }
    requires lower { left.old.lower ≡ [] }
    requires right_kinds { right.old.layer.kinds ≡ input.program.now.kinds }
    requires right_lower { right.old.lower ≡ [] }
    ensures kinds { left.new.layer.kinds ≡ left.old.layer.kinds }
    ensures lower { left.new.lower ≡ [] }
    ensures right_kinds { right.new.layer.kinds ≡ right.old.layer.kinds }
    ensures right_lower { right.new.lower ≡ [] }
{
    let _ = go_on(rt, alloc, input, right, child);
    let _ = go_on(rt, alloc, input, left, child);
    give_up(left, pool);
    give_up(right, pool);
    assert!(rt; are_neighbours(input.program, left, right));
}

/// A strand is robbed, the thief is robbed in turn, and so on, so many times; then all go on, the last one first, and become one
/// strand again.
fn play(
    rt: &impl Abort,
    alloc: Global,
    input: Input<'_>,
    victim: &mut Strand<PlainView>,
    pool: &mut Pool<Kit<PlainView>>,
    thefts: usize,
    child: Child,
)
    requires empty { input.records.now ≡ [] }
    requires kits { All (λ k. k ≡ input.program.now.kinds) pool.old.kits }
    requires kinds { victim.old.layer.kinds ≡ input.program.now.kinds }
    requires lower { victim.old.lower ≡ [] }
    ensures kinds { victim.new.layer.kinds ≡ victim.old.layer.kinds }
    ensures lower { victim.new.lower ≡ [] }
{
    if thefts == 0 {
        return;
    }
    let mut thief = rob(rt, alloc, input, victim, pool);
    play(rt, alloc, input, &mut thief, pool, thefts - 1, child);
    go_on_beside(rt, alloc, input, victim, &mut thief, pool, child);
    are_monoids(input.program);
    join(rt, victim, thief, pool);
}

/// What a run came to: its answer, how many kits are home then, and after how many steps its last strand was at its end.
#[derive(Drop)]
pub struct Ran {
    pub answer: String,
    pub kits: usize,
    pub steps: usize,
}

/// Runs a program with so many thefts, each at the next spawn.
pub fn run(rt: &impl Abort, alloc: Global, input: Input<'_>, thefts: usize, child: Child) -> Ran
    requires empty { input.records.now ≡ [] }
{
    let program = input.program;
    let mut pool = pool_of(rt, alloc, program);
    let kit = taken(rt, program, &mut pool);
    let mut strand = begin(rt, alloc, program, kit);
    play(rt, alloc, input, &mut strand, &mut pool, thefts, child);
    let steps = go_on(rt, alloc, input, &mut strand, child);
    let (answer, _) = strand.end(alloc, &mut pool);
    Ran {
        answer: answer_text(rt, alloc, program.program(), &answer),
        kits: pool.free(),
        steps,
    }
}

/// A program, the number that its thefts stay below, and its answer.
pub type Row = (&'static str, usize, &'static str);

/// A run with so many thefts gives the answer of the row, and all kits are home then.
fn agrees(rt: &impl Abort, alloc: Global, input: Input<'_>, row: &Row, thefts: usize, child: Child)
    requires empty { input.records.now ≡ [] }
{
    let ran = run(rt, alloc, input, thefts, child);
    assert!(rt;
        ran.answer.as_str() == row.2 && ran.kits == KITS,
        "{thefts} thefts: {}",
        row.0
    );
}

/// The program of a row gives the answer with each number of thefts, whichever way the other children go, as the plain slow program
/// does. All kits are home then.
pub fn all_answer(rt: &impl Abort, alloc: Global, input: Input<'_>, row: &Row)
    requires empty { input.records.now ≡ [] }
{
    agrees_slowly(rt, alloc, input.program, row);
    for thefts in 0..row.1 {
        agrees(rt, alloc, input, row, thefts, Child::Called);
        agrees(rt, alloc, input, row, thefts, Child::PutBack);
        agrees(rt, alloc, input, row, thefts, Child::Alone);
        agrees(rt, alloc, input, row, thefts, Child::Ahead);
        agrees(rt, alloc, input, row, thefts, Child::AllAhead);
    }
}

/// The plain slow program gives the answer of the row.
fn agrees_slowly(rt: &impl Abort, alloc: Global, program: &Checked, row: &Row) {
    let slow = slow_text(rt, alloc, program.program());
    assert!(rt; slow.as_str() == row.2, "{}", row.0);
}

/// The programs of the rows give their answers.
pub fn rows_answer(rt: &impl Abort, alloc: Global, rows: &[Row]) {
    for row in rows {
        try_program(rt, alloc, row.0, Tried::Row(row));
    }
}
