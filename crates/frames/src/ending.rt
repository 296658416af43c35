// The end of a strand: its upper layers are let go, and it answers.
ghost use Rattle.std.specs.Prelude.{◌≡◌, ◌+◌, ◌≤◌, ◌⊎◌, suc, length, List, All};
ghost use Rattle.monoid_laws.specs.declared.Kind.{Kind};
ghost use Rattle.positions.specs.Setting.{Setting};
ghost use Rattle.positions.specs.Layers.{lowest as lowest_of};
ghost use Rattle.positions.specs.Moves.{lowest_alone};
ghost use Rattle.positions.specs.Simulation.{IsAlone};
ghost use Rattle.strand_moves.specs.Joins.{HasFault};
ghost use Rattle.frames.specs.Answers.{ending_of, over, IsAnswer, IsAnswerOf};

use crate::strand::Strand;
use instance_records::record::Record;
use positions::answer::RunAnswer;
use positions::phase::Phase;
use small_steps::machine::Machine;
use std::alloc::{AllocError, Global};
use strand_moves::ending::{Tally, close_upper, left_with, let_go};
use view_pool::{Kit, KitSource, View};

impl<V: View> Strand<V> {
    /// A faulted strand: keeps its lowest layer alone, and sends the other kits home, each of them where there is room for them all.
    /// It takes no memory.
    pub fn close_upper<K: KitSource<Kit<V>>>(&mut self, kits: &mut K)
        requires faulted { HasFault self.old.phase }
        requires fits { K.fits self.old.layer.kinds kits.old }
        ensures alone { self.new ≡ lowest_alone self.old }
        ensures definition { (setting : Setting) → IsAlone setting self.old self.new }
        ensures kinds { self.new.layer.kinds ≡ self.old.layer.kinds }
        ensures fits_home { K.fits self.old.layer.kinds kits.new }
        ensures fitting { (k : List Kind) → K.fits k kits.old → K.fits k kits.new }
        ensures gives_known { (k : List Kind) → K.gives k kits.new
            → K.gives k kits.old ⊎ self.old.layer.kinds ≡ k }
        ensures home { length self.old.lower + K.free kits.old ≤ K.total kits.old
            → K.free kits.new ≡ length self.old.lower + K.free kits.old }
        ensures total { K.total kits.new ≡ K.total kits.old }
    {
        close_upper(&mut self.machine, kits);
    }

    /// The answer of a strand that is over, else Unfinished, and the records that it made; every kit goes home where there is room
    /// for them all.
    pub fn end<K: KitSource<Kit<V>>>(self, alloc: Global, kits: &mut K) -> (RunAnswer, Vec<Record>)
        requires fits { K.fits self.layer.kinds kits.old }
        ensures answer { IsAnswer (ending_of self) (lowest_of self.layer self.lower).worths
            self.tally result.0 }
        ensures definition { (setting : Setting) → IsAnswerOf setting self result.0 }
        ensures records { result.1.items ≡ self.tally.made }
        ensures fitting { (k : List Kind) → K.fits k kits.old → K.fits k kits.new }
        ensures gives_known { (k : List Kind) → K.gives k kits.new
            → K.gives k kits.old ⊎ self.layer.kinds ≡ k }
        ensures home { suc (length self.lower) + K.free kits.old ≤ K.total kits.old
            → K.free kits.new ≡ suc (length self.lower) + K.free kits.old }
        ensures total { K.total kits.new ≡ K.total kits.old }
    {
        let (answer, tally) = self.end_with_tally(alloc, kits);
        (answer, tally.into_records())
    }

    /// The same with the strand's tally in place of its records, which stay in the lists in which they were made.
    pub fn end_with_tally<K: KitSource<Kit<V>>>(
        self,
        alloc: Global,
        kits: &mut K,
    ) -> (RunAnswer, Tally)
        requires fits { K.fits self.layer.kinds kits.old }
        ensures answer { IsAnswer (ending_of self) (lowest_of self.layer self.lower).worths
            self.tally result.0 }
        ensures definition { (setting : Setting) → IsAnswerOf setting self result.0 }
        ensures records { result.1.made ≡ self.tally.made }
        ensures fitting { (k : List Kind) → K.fits k kits.old → K.fits k kits.new }
        ensures gives_known { (k : List Kind) → K.gives k kits.new
            → K.gives k kits.old ⊎ self.layer.kinds ≡ k }
        ensures home { suc (length self.lower) + K.free kits.old ≤ K.total kits.old
            → K.free kits.new ≡ suc (length self.lower) + K.free kits.old }
        ensures total { K.total kits.new ≡ K.total kits.old }
    {
        let Strand { machine } = self;
        end(machine, alloc, kits)
    }

    /// The answer of a strand with one layer that is over, else Unfinished; want of memory for the values is an answer too.
    pub fn answer(&self, alloc: Global) -> RunAnswer
        ensures answer { IsAnswer (ending_of self.now) self.now.layer.worths self.now.tally result }
    {
        answer_of(&self.machine, alloc)
    }
}

/// The answer, and the tally with the records made; every kit goes home.
fn end<V: View, K: KitSource<Kit<V>>>(
    mut machine: Machine<V>,
    alloc: Global,
    kits: &mut K,
) -> (RunAnswer, Tally)
    requires kinds { All (λ l. l.kinds ≡ machine.layer.kinds) machine.lower }
    requires fits { K.fits machine.layer.kinds kits.old }
    ensures answer { IsAnswer (ending_of machine) (lowest_of machine.layer machine.lower).worths
        machine.tally result.0 }
    ensures records { result.1.made ≡ machine.tally.made }
    ensures fitting { (k : List Kind) → K.fits k kits.old → K.fits k kits.new }
    ensures gives_known { (k : List Kind) → K.gives k kits.new → K.gives k kits.old ⊎ machine.layer.kinds ≡ k }
    ensures home { suc (length machine.lower) + K.free kits.old ≤ K.total kits.old → K.free kits.new ≡ suc (length machine.lower) + K.free kits.old }
    ensures total { K.total kits.new ≡ K.total kits.old }
{
    close_upper(&mut machine, kits);
    let answer = answer_of(&machine, alloc);
    (answer, let_go(machine, kits))
}

/// The answer of one with one layer.
fn answer_of<V: View>(machine: &Machine<V>, alloc: Global) -> RunAnswer
    ensures answer { IsAnswer (ending_of machine.now) machine.now.layer.worths machine.now.tally result }
{
    match left_with(machine) {
        Some(value) => finish(machine, alloc, value),
        None => match machine.phase {
            Phase::Broken(fault) => RunAnswer::Fault(fault),
            _ => RunAnswer::Unfinished,
        },
    }
}

/// The answer of a run that is over with that value.
fn finish<V: View>(machine: &Machine<V>, alloc: Global, value: i64) -> RunAnswer
    ensures answer { IsAnswer (over value) machine.now.layer.worths machine.now.tally result }
{
    match machine.layer.values_held(alloc) {
        Ok(values) => RunAnswer::Finished {
            result: value,
            values,
            executed: machine.tally.executed(),
            reused: machine.tally.reused(),
            unrecorded: machine.tally.unrecorded(),
        },
        Err(AllocError) => RunAnswer::NoMemory,
    }
}
