//! Strands that are right for a run.
ghost use Rattle.std.specs.Prelude.{◌≡◌, ◌∷◌, ◌++◌, ◌+◌, ◌≤◌, ◌⊎◌, [], suc, false, true, ℕ, List, length, IfOk, IfErr, OnOk, OnErr};
ghost use Rattle.monoid_laws.specs.declared.Kind.{Kind};
ghost use Rattle.meaning.specs.SmallStep.{same_name};
ghost use Rattle.positions.specs.Advance.{advanced, pause_of};
ghost use Rattle.positions.specs.Moves.{inlined, detached, attached, resumed, stolen, joined, lowest_alone, at_update};
ghost use Rattle.positions.specs.Simulation.{IsFirst, place_of};
ghost use Rattle.positions.specs.Tallies.{no_tally};
ghost use Rattle.answered_loops.specs.Ways.{IsWay};
ghost use Rattle.strand_moves.specs.Joins.{HasFault};
ghost use Rattle.small_steps.specs.Steps.{GivesNone, HoldsFor};
ghost use Rattle.activations.specs.Waiting.{leaves_none};
ghost use Rattle.running_ahead.specs.Stepped.{IsStepped};
ghost use Rattle.right_strands.specs.Rightness.{FitsHere, IsRightStrand, WasDetached};
ghost use Rattle.right_strands.specs.Pairs.{IsPairFrom, IsStill};

use crate::body::Body;
use crate::run::{Run, Scene};
use crate::spare::Spare;
use crate::task::RightTask;
use frames::strand::Strand;
use positions::phase::{Paused, Phase};
use positions::start::Start;
use running_ahead::spawning::Spawning;
use std::alloc::{AllocError, Global};
use std::marker::{Model, PhantomData};
use view_pool::{Kit, KitSource, View};

/// A strand that is right for the run J, unless memory was refused within one of its small steps; and where it begins. It lies in one box
/// from its beginning to its end.
#[derive(Drop)]
pub struct RightStrand<J: Run, V: View = Box<dyn View>> {
    pub(crate) body: Box<Body<V>>,
    pub(crate) of: PhantomData<J>,
}

impl<J: Run, V: View> Model for RightStrand<J, V> {
    ghost use Rattle.right_strands.specs.Rightness.{PlainRight, IsHeld};

    ghost Value = { PlainRight };

    ghost view = { λ s. record { strand = s.body.value.strand; failed = s.body.value.failed } };

    ghost invariant = { λ s. IsHeld J.setting s.body.value.start s.body.value.failed s.body.value.strand };
}

impl<J: Run, V: View> RightStrand<J, V> {
    /// The strand of the run's beginning, main's of the definitions. Want of memory is the only error; it hands the kit back.
    pub fn first(
        alloc: Global,
        scene: &Scene<'_, J>,
        kit: Kit<V>,
    ) -> Result<RightStrand<J, V>, (AllocError, Kit<V>)>
        requires kit { kit ≡ J.setting.kinds }
        ensures first { IfOk result (λ s. IsFirst J.setting s.strand) }
        ensures begins { IfOk result (λ s. s.strand.start ≡ Start.Root) }
        ensures going { IfOk result (λ s. s.failed ≡ false) }
        ensures handed_back { IfErr result (λ e. e.1 ≡ kit) }
    {
        let strand = match Strand::first(alloc, scene.program, kit) {
            Ok(strand) => strand,
            Err(refused) => return Err(refused),
        };
        let start = Start::Root;
        match Body::boxed(alloc, strand, start) {
            Ok(body) => Ok(RightStrand {
                body,
                of: PhantomData,
            }),
            Err(refused) => Err(refused),
        }
    }

    /// The strand of a stolen continuation, where another one has lain. Want of memory is the only error; it hands the continuation and the
    /// kit back.
    #[inline(always)]
    pub fn stolen(
        scene: &Scene<'_, J>,
        task: RightTask<J>,
        kit: Kit<V>,
        spare: Spare<V>,
    ) -> Result<RightStrand<J, V>, (AllocError, RightTask<J>, Kit<V>)>
        requires kit { kit ≡ J.setting.kinds }
        ensures stolen { IfOk result (λ s. s.strand ≡ stolen J.setting.codes kit task.task) }
        ensures going { IfOk result (λ s. s.failed ≡ false) }
        ensures task_back { IfErr result (λ e. e.1 ≡ task) }
        ensures kit_back { IfErr result (λ e. e.2 ≡ kit) }
    {
        match RightStrand::begun(scene, task, kit, spare) {
            Ok(strand) => {
                let mut strand = strand;
                strand.expect_records(scene);
                Ok(strand)
            }
            Err(refused) => Err(refused),
        }
    }

    /// Records may come of each iteration of a loop's second half with which a stolen strand begins, where many are expected of the run: room
    /// for all of them is made as they come. It takes no memory.
    fn expect_records(&mut self, scene: &Scene<'_, J>)
        ensures same { self.new ≡ self.old }
    {
        let Some(most) = scene.records.expected() else {
            return;
        };
        self.body.strand.expect_records(scene.program, most);
    }

    /// The strand of a stolen continuation, where another one has lain.
    #[inline(always)]
    fn begun(
        scene: &Scene<'_, J>,
        task: RightTask<J>,
        kit: Kit<V>,
        spare: Spare<V>,
    ) -> Result<RightStrand<J, V>, (AllocError, RightTask<J>, Kit<V>)>
        requires kit { kit ≡ J.setting.kinds }
        ensures stolen { IfOk result (λ s. s.strand ≡ stolen J.setting.codes kit task.task) }
        ensures going { IfOk result (λ s. s.failed ≡ false) }
        ensures task_back { IfErr result (λ e. e.1 ≡ task) }
        ensures kit_back { IfErr result (λ e. e.2 ≡ kit) }
    {
        let RightTask { task, since, of: _ } = task;
        let start = behind(task.place());
        let Spare { mut body } = spare;
        match body.begin_stolen(scene.program, start, task, kit) {
            Ok(()) => Ok(RightStrand {
                body,
                of: PhantomData,
            }),
            Err((error, task, kit)) => Err((
                error,
                RightTask {
                    task,
                    since,
                    of: PhantomData,
                },
                kit,
            )),
        }
    }

    /// Does one small step and answers Working, or changes nothing and answers the point at which the strand is. Where memory is
    /// refused the strand has failed: nothing is claimed of it any more.
    #[inline(always)]
    pub fn advance<K: KitSource<Kit<V>>>(
        &mut self,
        alloc: Global,
        scene: &Scene<'_, J>,
        kits: &mut K,
    ) -> Result<Paused, AllocError>
        requires given_kinds { (k : List Kind) → K.gives k kits.old → k ≡ J.setting.kinds }
        requires fits { K.fits J.setting.kinds kits.old }
        ensures pause { IfOk result (λ paused. paused ≡ pause_of J.setting.codes self.old.strand) }
        ensures advanced { OnOk result (HoldsFor K.KitSource kits.old
            (λ kit. self.new.strand ≡ advanced J.setting kit self.old.strand)) }
        ensures going { OnOk result (self.new.failed ≡ self.old.failed) }
        ensures failed { OnErr result (self.new.failed ≡ true) }
        // No kit is lost, where there is room for all of them.
        ensures kits { suc (length self.old.strand.lower) + K.free kits.old ≤ K.total kits.old
            → length self.new.strand.lower + K.free kits.new
            ≡ length self.old.strand.lower + K.free kits.old }
        ensures total { K.total kits.new ≡ K.total kits.old }
        ensures fitting { (k : List Kind) → K.fits k kits.old → K.fits k kits.new }
        ensures given_kinds { (k : List Kind) → K.gives k kits.new → k ≡ J.setting.kinds }
    {
        match self
            .body
            .strand
            .advance(alloc, scene.program, scene.tables, scene.records, kits)
        {
            Ok(paused) => Ok(paused),
            Err(error) => {
                self.body.failed = true;
                Err(error)
            }
        }
    }

    /// Does small steps for which no kit is needed, some or none, where spawned children may be made calls; where memory is refused
    /// it stops before.
    #[inline(always)]
    pub fn run_ahead<S: Spawning>(&mut self, alloc: Global, scene: &Scene<'_, J>, spawning: &mut S)
        ensures way { IsWay J.setting self.old.strand self.new.strand }
        ensures going { self.new.failed ≡ self.old.failed }
        ensures lower { self.new.strand.lower ≡ self.old.strand.lower }
        ensures same { spawning.new ≡ spawning.old }
    {
        self.body.strand.run_ahead(alloc, scene.program, scene.tables, scene.records, spawning);
    }

    /// Where the topmost instance is a loop's over a memo procedure, has records answer iterations: all those of a half that is halved
    /// again, where they can, else the first ones, and it goes down to the next; or the first ones of those that are left one by one. At a
    /// spawn it has a record answer the child. It is said whether a spawned child is called, for the halves that aren't answered, and whether a
    /// half of few iterations that aren't all answered is left as it is where they may be done in one go. Where memory is refused the strand
    #[inline(always)]
    pub fn answer_ahead(
        &mut self,
        alloc: Global,
        scene: &Scene<'_, J>,
        calls: bool,
        leaves: bool,
    ) -> Result<(), AllocError>
        ensures way { OnOk result (IsWay J.setting self.old.strand self.new.strand) }
        ensures going { OnOk result (self.new.failed ≡ self.old.failed) }
        ensures failed { OnErr result (self.new.failed ≡ true) }
        ensures lower { self.new.strand.lower ≡ self.old.strand.lower }
    {
        match self.body.strand.answer_ahead(
            alloc,
            scene.program,
            scene.tables,
            scene.records,
            calls,
            leaves,
        ) {
            Ok(()) => Ok(()),
            Err(error) => {
                self.body.failed = true;
                Err(error)
            }
        }
    }

    /// Where a loop over a memo procedure is next: does its next iterations in one go, as far as records answer them or they do all of their
    /// statements by themselves, each of these in a layer of its own that becomes a record; those of a half only where it is small or spawned
    /// children are called. Whether it did anything. A kit is taken for that, and given back. Where memory is refused the strand has failed.
    #[inline(always)]
    pub fn record_ahead<S: Spawning, K: KitSource<Kit<V>>>(
        &mut self,
        alloc: Global,
        scene: &Scene<'_, J>,
        spawning: &mut S,
        kits: &mut K,
    ) -> Result<bool, AllocError>
        requires given_kinds { (k : List Kind) → K.gives k kits.old → k ≡ J.setting.kinds }
        requires fits { K.fits J.setting.kinds kits.old }
        ensures steps { OnOk result (IsStepped J.setting self.old.strand self.new.strand) }
        ensures going { OnOk result (self.new.failed ≡ self.old.failed) }
        ensures failed { OnErr result (self.new.failed ≡ true) }
        ensures lower { OnOk result (self.new.strand.lower ≡ self.old.strand.lower) }
        // No kit is lost, where there is room for all of them.
        ensures kits { suc (length self.old.strand.lower) + K.free kits.old ≤ K.total kits.old
            → length self.new.strand.lower + K.free kits.new
            ≡ length self.old.strand.lower + K.free kits.old }
        ensures total { K.total kits.new ≡ K.total kits.old }
        ensures fitting { (k : List Kind) → K.fits k kits.old → K.fits k kits.new }
        ensures given_kinds { (k : List Kind) → K.gives k kits.new → k ≡ J.setting.kinds }
        ensures without_kit { GivesNone K.gives kits.old → self.new.strand ≡ self.old.strand }
    {
        match self.body.strand.record_ahead(
            alloc,
            scene.program,
            scene.tables,
            scene.records,
            spawning,
            kits,
        ) {
            Ok(done) => Ok(done),
            Err(error) => {
                self.body.failed = true;
                Err(error)
            }
        }
    }

    /// The point at which the strand is, or Working where it can go on.
    pub fn pause(&self, scene: &Scene<'_, J>) -> Paused
        ensures pause { result ≡ pause_of J.setting.codes self.now.strand }
    {
        self.body.strand.pause(scene.program)
    }

    /// What the type keeps.
    pub fn upheld(&self)
        ensures right { self.now.failed ≡ false → IsRightStrand J.setting self.now.strand }
        ensures kinds { self.now.strand.layer.kinds ≡ J.setting.kinds }
    {
        let _ = &self.body.strand;
    }

    /// Whether memory was refused within one of its small steps.
    pub fn has_failed(&self) -> bool
        ensures failed { result ≡ self.now.failed }
    {
        self.body.failed
    }

    /// At a spawn: makes the child a call.
    pub fn inline(&mut self)
        requires at_spawn { self.old.strand.phase ≡ Phase.AtSpawn }
        ensures called { self.new ≡ record self.old { strand = inlined self.old.strand } }
    {
        self.body.strand.inline();
    }

    /// At a spawn: takes out the continuation, and goes on with the child alone.
    pub fn detach(&mut self, alloc: Global) -> RightTask<J>
        requires going { self.old.failed ≡ false }
        requires at_spawn { self.old.strand.phase ≡ Phase.AtSpawn }
        ensures since { result.since ≡ self.old.strand.start }
        ensures place { result.task.place ≡ self.old.strand.path }
        ensures below { self.old.strand.below ≡ result.task.top ∷ result.task.below }
        ensures child { self.new ≡ record self.old { strand = detached self.old.strand } }
        ensures was { WasDetached J.setting result self.new.strand }
    {
        let since = self.body.start;
        let task = self.body.strand.detach(alloc);
        RightTask {
            task,
            since,
            of: PhantomData,
        }
    }

    /// Puts a continuation back that was just taken out: the child is a call.
    pub fn attach(&mut self, task: RightTask<J>)
        requires was { WasDetached J.setting task self.old.strand }
        ensures called { self.new
            ≡ record self.old { strand = attached task.task self.old.strand } }
    {
        let RightTask { task, .. } = task;
        self.body.strand.attach(task);
    }

    /// Whether the continuation is the one that waits for this strand's child; a strand that has failed fits none.
    pub fn fits(&self, task: &RightTask<J>) -> bool
        ensures fits { result ≡ true → FitsHere self.now.strand task.now }
    {
        !self.body.failed && self.is_since(task) && is_same(self.body.strand.name(), task.place())
    }

    /// Whether the continuation was pushed by a strand that began where this one did.
    fn is_since(&self, task: &RightTask<J>) -> bool
        ensures since { result ≡ true → self.now.failed ≡ false
            → self.now.strand.start ≡ task.now.since }
    {
        self.body.start == task.since()
    }

    /// Where the spawned child has returned: goes on with the continuation that waits for it; elsewhere nothing changes.
    pub fn resume(&mut self, task: RightTask<J>)
        requires fits { FitsHere self.old.strand task }
        ensures resumed { self.new
            ≡ record self.old { strand = resumed task.task self.old.strand } }
    {
        let RightTask { task, .. } = task;
        self.body.strand.resume(task);
    }

    /// A strand with a fault: keeps its lowest layer alone, and sends the other kits home, each of them where there is room for
    /// them all. It takes no memory.
    pub fn close_upper<K: KitSource<Kit<V>>>(&mut self, kits: &mut K)
        requires faulted { HasFault self.old.strand.phase }
        requires fits { K.fits J.setting.kinds kits.old }
        ensures alone { self.new ≡ record self.old { strand = lowest_alone self.old.strand } }
        ensures fitting { (k : List Kind) → K.fits k kits.old → K.fits k kits.new }
        ensures gives_known { (k : List Kind) → K.gives k kits.new
            → K.gives k kits.old ⊎ J.setting.kinds ≡ k }
        ensures home { length self.old.strand.lower + K.free kits.old ≤ K.total kits.old
            → K.free kits.new ≡ length self.old.strand.lower + K.free kits.old }
        ensures total { K.total kits.new ≡ K.total kits.old }
    {
        self.body.strand.close_upper(kits);
    }

    /// Puts its right neighbour behind it, where the two are a pair and it begins there; the right one is to be let go. Where memory is
    /// refused they are a pair still, but each by itself has failed then.
    pub(crate) fn join(
        &mut self,
        scene: &Scene<'_, J>,
        start: Start,
        right: &mut RightStrand<J, V>,
    ) -> Result<(), AllocError>
        requires pair { IsPairFrom J.setting start self.old.strand right.old.strand }
        ensures joined { OnOk result (self.new
            ≡ record { strand = joined self.old.strand right.old.strand; failed = false }) }
        ensures one_layer { right.old.strand.lower ≡ [] }
        ensures bare { OnOk result (right.new.strand.lower ≡ []) }
        ensures uncounted { OnOk result (right.new.strand.tally ≡ no_tally) }
        ensures pair { OnErr result (IsPairFrom J.setting start self.new.strand right.new.strand) }
        ensures still { OnErr result (IsStill
            (record { left = self.old.strand; right = right.old.strand })
            (record { left = self.new.strand; right = right.new.strand })) }
    {
        // The setting's records are sound: so the two are neighbours that may become one.
        scene.upheld();
        self.body.join_there(start, &mut *right.body)
    }

    /// The kit of a strand that is let go, of which this one keeps some lists, and what it leaves for another one.
    #[inline(always)]
    pub(crate) fn let_go(&mut self, over: RightStrand<J, V>) -> (Kit<V>, Spare<V>)
        requires one_layer { over.strand.lower ≡ [] }
        requires uncounted { over.strand.tally ≡ no_tally }
        ensures same { self.new ≡ self.old }
        ensures kit { result.0 ≡ J.setting.kinds }
    {
        let RightStrand { mut body, of: _ } = over;
        let kit = self.body.strand.lay_bare(&mut body.strand);
        (kit, Spare { body })
    }

    /// How many kits it has: one for each of its layers.
    pub fn kits(&self) -> usize
        ensures kits { result ≡ suc (length self.now.strand.lower) }
    {
        self.body.strand.kits()
    }

    /// Whether the topmost instance has a half of a loop left that was halved so often, or goes over to such a second half. Nothing rests on it.
    #[inline(always)]
    pub fn is_parted(&self, often: u32) -> bool {
        self.body.strand.is_parted(often)
    }

    /// Whether the next small step is that of an update.
    pub fn at_update(&self, scene: &Scene<'_, J>) -> bool
        ensures update { result ≡ at_update J.setting.codes self.now.strand }
    {
        self.body.strand.at_update(scene.program)
    }

    /// Whether no name of this strand would wait for a child that ends after the beginning of its left neighbour, which has ended,
    /// if the two were joined.
    pub(crate) fn leaves_none_waiting(&self, left: &RightStrand<J, V>) -> bool
        ensures waiting { result ≡ leaves_none left.now.strand self.now.strand }
    {
        self.body.strand.leaves_none_waiting(&left.body.strand)
    }

    /// What the topmost instance does next.
    pub fn phase(&self) -> Phase
        ensures phase { result ≡ self.now.strand.phase }
    {
        self.body.strand.phase()
    }

    /// Where the strand begins.
    pub fn start(&self) -> Start
        ensures start { self.now.failed ≡ false → result ≡ self.now.strand.start }
    {
        self.body.start
    }

    /// The whole name of the topmost instance.
    pub fn name(&self) -> &[usize]
        ensures name { result.now ≡ self.now.strand.path }
    {
        self.body.strand.name()
    }

    /// Whether the strand begins behind the child of that name; the first one does behind the empty name.
    pub fn is_behind(&self, name: &[usize]) -> bool
        ensures behind { result
            ≡ same_name (place_of self.now.strand.start self.now.strand.path) name.now }
    {
        self.body.strand.is_behind(name)
    }

    /// The name of the child behind which the strand begins; that of the first strand is empty. Want of memory is the only
    /// error.
    pub fn begins_behind(&self, alloc: Global) -> Result<Vec<usize>, AllocError>
        ensures place { IfOk result (λ place. place.items
            ≡ place_of self.now.strand.start self.now.strand.path) }
    {
        self.body.strand.begins_behind(alloc)
    }

    /// The strand by itself.
    pub fn into_strand(self) -> Strand<V>
        ensures strand { result ≡ self.strand }
        ensures right { self.failed ≡ false → IsRightStrand J.setting self.strand }
        ensures kinds { self.strand.layer.kinds ≡ J.setting.kinds }
    {
        let RightStrand { body, of: _ } = self;
        let Body { strand, .. } = Box::into_inner(body);
        strand
    }
}

/// Where a strand begins whose continuation waits for the child of that name.
fn behind(place: &[usize]) -> Start
    ensures behind { (front : List ℕ) (child : ℕ) → place.now ≡ front ++ child ∷ []
        → result ≡ Start.Behind (length front) child }
{
    match place.split_last() {
        None => Start::Root,
        Some((child, front)) => Start::Behind {
            depth: front.len(),
            child: *child,
        },
    }
}

/// Whether two names are the same.
fn is_same(left: &[usize], right: &[usize]) -> bool
    ensures same { result ≡ true → left.now ≡ right.now }
{
    left == right
}
