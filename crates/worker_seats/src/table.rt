//! The list of a run's strands, and its kits.
ghost use Rattle.std.specs.Prelude.{◌≡◌, ◌+◌, false, true, suc, IfErr, IfSome, IfNone, OnOk};
ghost use Rattle.sync_fold.specs.Counts.{kits_of};
ghost use Rattle.worker_seats.specs.Balances.{Balances, Lacks, LacksOne, LacksPart};
ghost use Rattle.worker_seats.specs.Over.{is_far, is_right};

use crate::depot::Depot;
use crate::failure::{Failure, failure_of};
use crate::held::Held;
use crate::kits::{KitsOf, RightPool, Stocked};
use crate::waiting::Waiting;
use right_strands::laid::Piece;
use right_strands::run::{Run, Scene};
use right_strands::strand::RightStrand;
use right_strands::task::RightTask;
use std::alloc::Global;
use std::sync::ledger::Share;
use stealing_deques::{Deques, ThiefEnd};
use sync_fold::Book;
use view_pool::{Kit, View};

/// The list of a run's strands, and its kits. Where a step is refused, the error says why the run gives up; kits may be lost then.
#[derive(Drop)]
pub struct Table<J: Run + Stocked, V: View> {
    pub book: Book<J, V>,
    pub depot: Depot<KitsOf<J>, Kit<V>>,
}

/// The oldest continuation of the worker of that number, where it has one.
fn oldest_of<J: Run + Send, D: Deques>(
    deques: &mut [ThiefEnd<Waiting<J>, D>],
    came: &[usize],
    victim: usize,
) -> Option<Box<RightTask<J>>> {
    let deque = came.get(victim)?;
    let waiting = deques.get_mut(*deque)?.steal()?;
    Some(waiting.task)
}

/// The oldest continuation of the first worker with one, among those from one number up to another, and that worker.
fn oldest_among<J: Run + Send, D: Deques>(
    deques: &mut [ThiefEnd<Waiting<J>, D>],
    came: &[usize],
    from: usize,
    to: usize,
) -> Option<(usize, Box<RightTask<J>>)> {
    for victim in from..to {
        if let Some(task) = oldest_of(deques, came, victim) {
            return Some((victim, task));
        }
    }
    None
}

/// The oldest continuation of the next worker that has one, and that worker.
fn take_oldest<J: Run + Send, D: Deques>(
    deques: &mut [ThiefEnd<Waiting<J>, D>],
    came: &[usize],
    worker: usize,
) -> Option<(usize, Box<RightTask<J>>)> {
    match oldest_among(deques, came, worker.saturating_add(1), came.len()) {
        Some(found) => Some(found),
        None => oldest_among(deques, came, 0, worker),
    }
}

impl<J: Run + Stocked, V: View> Table<J, V> {
    /// The pool by itself.
    pub fn into_pool(self) -> RightPool<KitsOf<J>, Kit<V>> {
        let Table { depot, .. } = self;
        depot.into_pool()
    }
}

impl<J: Run + Stocked + Send, V: View> Table<J, V> {
    /// Lays a strand down that a worker held with that share, which has so many kits.
    pub fn lay(
        &mut self,
        alloc: Global,
        piece: Piece<J, V>,
        share: Share<KitsOf<J>>,
        kits: usize,
    ) -> Result<(), Failure>
        requires balanced { Balances self.old.depot self.old.book.laid }
        requires one { share.parts ≡ 1 }
        requires counted { share.amount ≡ kits }
        requires kits { kits ≡ kits_of piece.strand }
        ensures balanced { OnOk result (Balances self.new.depot self.new.book.laid) }
        ensures right { IfErr result (λ f. is_right f ≡ true) }
        ensures near { IfErr result (λ f. is_far f ≡ false) }
    {
        match self.book.lay(alloc, piece) {
            Ok(()) => {
                self.depot.end(share, kits);
                Ok(())
            }
            Err((refusal, piece)) => {
                drop(piece);
                Err(failure_of(refusal))
            }
        }
    }

    /// Folds the first neighbours that may be folded, if there are any.
    pub fn fold(
        &mut self,
        alloc: Global,
        scene: &Scene<'_, J>,
        worker: usize,
    ) -> Option<Result<Held<J, V>, Failure>>
        requires balanced { Balances self.old.depot self.old.book.laid }
        ensures balanced { IfSome result (λ r. OnOk r (Balances self.new.depot self.new.book.laid)) }
        ensures none { IfNone result (Balances self.new.depot self.new.book.laid) }
        ensures right { IfSome result (λ r. IfErr r (λ f. is_right f ≡ true)) }
        ensures near { IfSome result (λ r. IfErr r (λ f. is_far f ≡ false)) }
    {
        match self.book.fold_any(alloc, scene, worker) {
            Some(Ok((strand, kit))) => Some(Ok(self.take_up(strand, kit))),
            Some(Err(refusal)) => Some(Err(failure_of(refusal))),
            None => None,
        }
    }

    /// A worker holds a strand that two have become, and the kit of the right one is free.
    fn take_up(&mut self, strand: RightStrand<J, V>, kit: Kit<V>) -> Held<J, V>
        requires kind { kit ≡ J.setting.kinds }
        requires lacks { Lacks strand.strand (record self.old.depot { free = suc self.old.depot.free }) self.old.book.laid }
        ensures balanced { Balances self.new.depot self.new.book.laid }
    {
        // There is room for each kit of the run.
        self.depot.put_folded(kit);
        self.hold(strand)
    }

    /// A worker holds a strand, as the list says already.
    fn hold(&mut self, strand: RightStrand<J, V>) -> Held<J, V>
        requires lacks { Lacks strand.strand self.old.depot self.old.book.laid }
        ensures balanced { Balances self.new.depot self.new.book.laid }
    {
        self.book.counted();
        let kits = strand.kits();
        Held::new(strand, self.depot.begin(kits))
    }

    /// Takes a kit, and then the oldest continuation of a worker that has one, from which another goes on.
    pub fn steal<D: Deques>(
        &mut self,
        alloc: Global,
        scene: &Scene<'_, J>,
        deques: &mut [ThiefEnd<Waiting<J>, D>],
        came: &[usize],
        worker: usize,
    ) -> Result<Option<Held<J, V>>, Failure>
        requires balanced { Balances self.old.depot self.old.book.laid }
        ensures balanced { OnOk result (Balances self.new.depot self.new.book.laid) }
        ensures right { IfErr result (λ f. is_right f ≡ true) }
        ensures near { IfErr result (λ f. is_far f ≡ false) }
    {
        let Some(kit) = self.depot.take() else {
            return Ok(None);
        };
        match take_oldest(deques, came, worker) {
            Some((victim, task)) => self.rob(alloc, scene, worker, victim, task, kit),
            None => {
                self.put_back(kit);
                Ok(None)
            }
        }
    }

    /// Puts a kit among the free ones that was taken for nothing.
    fn put_back(&mut self, kit: Kit<V>)
        requires kind { kit ≡ J.setting.kinds }
        requires lacks { LacksOne self.old.depot self.old.book.laid }
        ensures balanced { Balances self.new.depot self.new.book.laid }
    {
        // There is room for each kit of the run.
        self.depot.put_untaken(kit);
    }

    /// The worker goes on from a continuation that was taken from the victim, as a strand with that kit. It is no part of who looks for
    /// one, mostly in vain: the room for what it moves would be cleared at each look.
    #[inline(never)]
    fn rob(
        &mut self,
        alloc: Global,
        scene: &Scene<'_, J>,
        worker: usize,
        victim: usize,
        task: Box<RightTask<J>>,
        kit: Kit<V>,
    ) -> Result<Option<Held<J, V>>, Failure>
        requires kind { kit ≡ J.setting.kinds }
        requires lacks { LacksOne self.old.depot self.old.book.laid }
        ensures balanced { OnOk result (Balances self.new.depot self.new.book.laid) }
        ensures right { IfErr result (λ f. is_right f ≡ true) }
        ensures near { IfErr result (λ f. is_far f ≡ false) }
    {
        match self.book.split_held(alloc, victim, task.place(), worker) {
            Ok(()) => self.begin_stolen(alloc, scene, Box::into_inner(task), kit),
            Err(refusal) => {
                let _ = self.depot.put(kit);
                Err(failure_of(refusal))
            }
        }
    }

    /// The strand of a stolen continuation, once the list says that a worker holds it.
    fn begin_stolen(
        &mut self,
        alloc: Global,
        scene: &Scene<'_, J>,
        task: RightTask<J>,
        kit: Kit<V>,
    ) -> Result<Option<Held<J, V>>, Failure>
        requires kind { kit ≡ J.setting.kinds }
        requires lacks { LacksPart self.old.depot self.old.book.laid }
        ensures balanced { OnOk result (Balances self.new.depot self.new.book.laid) }
        ensures right { IfErr result (λ f. is_right f ≡ true) }
        ensures near { IfErr result (λ f. is_far f ≡ false) }
    {
        match self.book.begin_stolen(alloc, scene, task, kit) {
            Ok(strand) => Ok(Some(self.hold(strand))),
            Err((_, _, kit)) => {
                let _ = self.depot.put(kit);
                Err(Failure::NoMemory)
            }
        }
    }
}
