//! The floor: the scene, and the one lock over the list of strands, the thieves' ends of the deques and the pool.
ghost use Rattle.std.specs.Prelude.{◌≡◌, ◌+◌, ◌<◌, [], true, false, None, Some, All, length, IfOk, IfErr, IfSome, IfNone};
ghost use Rattle.linked_program.specs.Checked.{revised_of};
ghost use Rattle.linked_program.specs.TableNames.{columned_of};
ghost use Rattle.record_theory.specs.InStep.{IsInStep};
ghost use Rattle.record_theory.specs.Named.{HaveValues};
ghost use Rattle.positions.specs.Setting.{setting_with};
ghost use Rattle.numbered_runs.specs.Named.{history};
ghost use Rattle.numbered_runs.specs.News.{AreSound};
ghost use Rattle.right_strands.specs.Laid.{AnswersElision, IsGiven, HasRecorded};
ghost use Rattle.numbered_runs.specs.Starts.{CannotStart};
ghost use Rattle.stealing_deques.specs.Order.{IsBoundTo};
ghost use Rattle.numbered_runs.specs.Come.{HasEnded};
ghost use Rattle.sync_fold.specs.Counts.{kits_of};
ghost use Rattle.worker_seats.specs.Balances.{most, spare_count};
ghost use Rattle.worker_seats.specs.Histories.{HasHistory};
ghost use Rattle.worker_seats.specs.Ends.{IsAlone, IsEnd};
ghost use Rattle.threaded_driver.specs.Finds.{is_left, IsAt};
ghost use Rattle.sync_fold.specs.Refusals.{WasRefused, is_apart};
ghost use Rattle.worker_seats.specs.Over.{is_far, is_refusal, is_right};
ghost use Rattle.worker_seats.specs.Spots.{spot_of, own_spot, child_spot, HasReturned};

use crate::bell::Bell;
use crate::desk::{Desk, Parts};
use crate::found::Found;
use crate::gate::{Gate, Point};
use crate::parts::parted_by;
use crossbeam_utils::CachePadded;
use input_tables::Tables;
use instance_records::record::Record;
use linked_program::checked::Checked;
use numbered_runs::refusal::StartError;
use numbered_runs::step::BookStep;
use positions::answer::RunAnswer;
use positions::phase::{Paused, Phase};
use rerun_records::records::Records;
use right_strands::laid::Piece;
use right_strands::run::{Run, Scene};
use right_strands::strand::RightStrand;
use right_strands::task::RightTask;
use std::alloc::{AllocError, Global};
use std::marker::Model;
use std::sync::atomic::{AtomicBool, Ordering};
use std::sync::ledger::{Ledger, Share};
use std::sync::{Mutex, MutexGuard, Wait};
use stealing_deques::Deques;
use sync_fold::Mismatch;
use view_pool::{Kit, Pool, View};
use worker_seats::beginning::{NewDeques, first_of};
use worker_seats::depot::Depot;
use worker_seats::ended::Ended;
use worker_seats::failure::Failure;
use worker_seats::held::Held;
use worker_seats::kits::{KitsOf, RightPool, Stocked};
use worker_seats::seat::Seat;
use worker_seats::supply::Supply;

/// What contracts see of a floor: with how many kits its run began.
pub struct PlainFloor {
    pub kits: usize,
}

/// What the workers of a run share. The run began with so many free kits. That it gave up stands beside the lock too, where workers look
/// that go on without it: they stop earlier then, and nothing else rests on it. So does whether the first worker is alone still. The
/// bell is for those without a strand.
#[derive(Drop)]
pub struct Floor<'a, J: Run + Ledger + Stocked + Send, D: Deques, V: View> {
    pub(crate) alloc: Global,
    pub(crate) scene: Scene<'a, J>,
    pub(crate) desk: CachePadded<Mutex<Desk<J, D, V>>>,
    gave_up: AtomicBool,
    pub(crate) is_alone: AtomicBool,
    bell: CachePadded<Bell>,
    kits: usize,
    pub(crate) has_records: bool,
    pub(crate) parted: u32,
}

impl<'a, J: Run + Ledger + Stocked + Send, D: Deques, V: View> Model for Floor<'a, J, D, V> {
    ghost use Rattle.std.specs.Prelude.{◌≡◌};
    ghost use Rattle.threaded_driver.specs.declared.floor.PlainFloor.{PlainFloor};

    ghost Value = { PlainFloor };

    ghost view = { λ f. record { kits = f.kits } };

    ghost invariant = { λ f. f.kits ≡ J.begun };
}

impl<J: Run + Ledger + Stocked + Send, D: Deques, V: View> Floor<'_, J, D, V> {
    /// What workers without a strand wait by.
    pub(crate) fn bell(&self) -> &Bell {
        &self.bell
    }

    /// A worker comes, and empties its deque: its number, from 0 on, and the first strand for the first one.
    #[tactic(auto, using(crate::proofs::Binding::unbound_at))]
    pub(crate) fn come<R: Wait>(&self, rt: &R, seat: &mut Seat<J, D>) -> (usize, Found<J, V>)
        ensures left { is_left result.1 ≡ false }
        ensures here { IsAt seat.new.here result.1 }
    {
        let (number, first) = self.at_desk(rt).come(seat.deque());
        self.drain(rt, seat);
        match first {
            Some(held) => (number, Found::Own(held)),
            None => (number, Found::Nothing),
        }
    }

    /// What there is for a worker without a strand.
    pub(crate) fn find<R: Wait, G: Gate>(
        &self,
        rt: &R,
        number: usize,
        seat: &mut Seat<J, D>,
        gate: &G,
    ) -> Found<J, V>
        ensures left { is_left result ≡ true → 0 < seat.new.left }
        ensures here { seat.new.here ≡ seat.old.here }
    {
        self.look(self.at_desk(rt), number, seat, gate)
    }

    /// The same, where nobody has the lock: who waited for it would hold those up that have a strand to lay down.
    pub(crate) fn find_if_free<G: Gate>(
        &self,
        number: usize,
        seat: &mut Seat<J, D>,
        gate: &G,
    ) -> Found<J, V>
        ensures left { is_left result ≡ true → 0 < seat.new.left }
        ensures here { seat.new.here ≡ seat.old.here }
    {
        match self.at_free_desk() {
            Some(desk) => self.look(desk, number, seat, gate),
            None => Found::Nothing,
        }
    }

    /// What there is for a worker without a strand that has the lock, and gives it up. A thief comes to its point while it holds the lock. Who leaves
    /// takes two boxes of folded strands along and lets them go without the lock: else the first worker would have all of them before the answer.
    /// Before that it wakes the others, which leave meanwhile.
    fn look<G: Gate>(
        &self,
        desk: MutexGuard<'_, Desk<J, D, V>>,
        number: usize,
        seat: &mut Seat<J, D>,
        gate: &G,
    ) -> Found<J, V>
        ensures left { is_left result ≡ true → 0 < seat.new.left }
        ensures here { seat.new.here ≡ seat.old.here }
    {
        let mut desk = desk;
        let found = desk.find(self.alloc, &self.scene, number, seat);
        self.note(desk.has_failed());
        let spares = match &found {
            Found::Stolen(_) => {
                gate.at(number, Point::Stole);
                None
            }
            Found::Left => Some(desk.take_spares()),
            _ => None,
        };
        drop(desk);
        match &found {
            Found::Left => self.bell.end(),
            Found::Folded(_) => gate.at(number, Point::Folded),
            _ => {}
        }
        drop(spares);
        found
    }

    /// Goes on with a strand until there is nothing more to do with it, and lays it down; what there is for its worker then.
    pub(crate) fn run_strand<R: Wait, G: Gate>(
        &self,
        rt: &R,
        number: usize,
        seat: &mut Seat<J, D>,
        held: Held<J, V>,
        gate: &G,
    ) -> Found<J, V>
        requires bound { IsBoundTo seat.old.here (spot_of held.strand) }
        ensures left { is_left result ≡ true → 0 < seat.new.left }
        ensures fresh { seat.new.here ≡ None }
    {
        let (mut strand, share, ready) = held.into_parts();
        seat.lend_lists(&mut strand);
        let mut supply = Supply::new(rt, &self.desk, share, strand.kits(), ready);
        for _ in rt.forever() {
            if !self.step(rt, number, seat, &mut strand, &mut supply, gate) {
                break;
            }
        }
        let stay = self.folds_at_once(number, &strand);
        seat.take_lists(&mut strand, stay);
        self.lay(rt, number, seat, strand, supply, gate)
    }

    /// Whether a worker that lays its strand down will most likely fold it at once with the next one, which waits: so its lists may stay with it,
    /// and those of the child that has returned are kept there. It looks only where nobody has the lock, and nothing rests on it.
    fn folds_at_once(&self, number: usize, strand: &RightStrand<J, V>) -> bool {
        match strand.pause(&self.scene) {
            Paused::Returned => match self.desk.try_lock() {
                Some(desk) => desk.has_waiting_behind(number),
                None => false,
            },
            _ => false,
        }
    }

    /// At a spawn: puts the continuation off and goes on with the child, or makes the child a call where the deque holds enough or
    /// there is no room. Whether the strand goes on: not where the run has given up.
    pub(crate) fn spawn<G: Gate>(
        &self,
        number: usize,
        seat: &mut Seat<J, D>,
        strand: &mut RightStrand<J, V>,
        gate: &G,
    ) -> bool
        requires bound { IsBoundTo seat.old.here (spot_of strand.old.strand) }
        ensures bound { IsBoundTo seat.new.here (spot_of strand.new.strand) }
        ensures lower { strand.new.strand.lower ≡ strand.old.strand.lower }
    {
        if strand.has_failed() || self.has_given_up() {
            return false;
        }
        match strand.phase() {
            Phase::AtSpawn => {
                self.call_or_push(number, seat, strand, gate);
                true
            }
            _ => false,
        }
    }

    /// Makes the child of a strand that is at a spawn a call where the deque holds enough or the child is too small, else pushes the continuation.
    #[inline(always)]
    fn call_or_push<G: Gate>(
        &self,
        number: usize,
        seat: &mut Seat<J, D>,
        strand: &mut RightStrand<J, V>,
        gate: &G,
    )
        requires going { strand.old.failed ≡ false }
        requires at_spawn { strand.old.strand.phase ≡ Phase.AtSpawn }
        requires bound { IsBoundTo seat.old.here (spot_of strand.old.strand) }
        ensures bound { IsBoundTo seat.new.here (spot_of strand.new.strand) }
        ensures lower { strand.new.strand.lower ≡ strand.old.strand.lower }
    {
        if self.calls_child(seat, strand) {
            strand.inline();
            return;
        }
        self.push(number, seat, strand, gate);
    }

    /// Pushes the continuation of a strand that is at a spawn. It takes no lock.
    fn push<G: Gate>(
        &self,
        number: usize,
        seat: &mut Seat<J, D>,
        strand: &mut RightStrand<J, V>,
        gate: &G,
    )
        requires going { strand.old.failed ≡ false }
        requires at_spawn { strand.old.strand.phase ≡ Phase.AtSpawn }
        requires bound { IsBoundTo seat.old.here (spot_of strand.old.strand) }
        ensures bound { IsBoundTo seat.new.here (spot_of strand.new.strand) }
        ensures lower { strand.new.strand.lower ≡ strand.old.strand.lower }
    {
        // The run's records are sound and the task is a strand's: so the strand may go on with it where it comes back.
        self.scene.upheld();
        let task = strand.detach(self.alloc);
        task.upheld();
        match seat.push(self.alloc, task) {
            Ok(()) => {
                self.bell.ring();
                gate.at(number, Point::Pushed);
            }
            Err(task) => strand.attach(task),
        }
    }

    /// Where the child has returned: goes on with the continuation that waits for it, unless all were stolen or the run has given
    /// up. Whether the strand goes on.
    pub(crate) fn resume<R: Wait, G: Gate>(
        &self,
        rt: &R,
        number: usize,
        seat: &mut Seat<J, D>,
        strand: &mut RightStrand<J, V>,
        gate: &G,
    ) -> bool
        requires returned { HasReturned strand.old.strand }
        requires bound { IsBoundTo seat.old.here (spot_of strand.old.strand) }
        ensures bound { result ≡ true → IsBoundTo seat.new.here (spot_of strand.new.strand) }
        ensures lower { strand.new.strand.lower ≡ strand.old.strand.lower }
    {
        if self.has_given_up() {
            return false;
        }
        match self.take(rt, seat) {
            Some(task) => {
                strand.resume(Box::into_inner(task));
                gate.at(number, Point::Popped);
                true
            }
            None => false,
        }
    }

    /// The newest continuation in the worker's deque, which waits for the child at its spot; none once all that was pushed was
    /// taken. The lock is taken only where a pop has missed, to count; not where nothing was pushed since the deque was found empty, as
    /// behind a fold.
    #[inline(always)]
    fn take<R: Wait>(&self, rt: &R, seat: &mut Seat<J, D>) -> Option<Box<RightTask<J>>>
        ensures waits { IfSome result (λ t. seat.old.here ≡ Some (child_spot t.value)) }
        ensures popped { IfSome result (λ t. seat.new.here ≡ Some (own_spot t.value)) }
        ensures drained { IfNone result (seat.new.here ≡ None) }
    {
        if !seat.may_be_bound() {
            return None;
        }
        for _ in rt.forever() {
            if let Some(task) = seat.pop() {
                return Some(task);
            }
            if self.at_desk(rt).unbind_if_drained(seat) {
                return None;
            }
        }
        unreachable!()
    }

    /// Pops what is left in the worker's deque: what a strand with a fault has left there is behind the fault, and nobody needs it.
    fn drain<R: Wait>(&self, rt: &R, seat: &mut Seat<J, D>)
        ensures drained { seat.new.here ≡ None }
    {
        for _ in rt.forever() {
            if self.take(rt, seat).is_none() {
                return;
            }
        }
        unreachable!()
    }

    /// Lays a strand down, once its worker's deque is empty; the kit that is kept for it goes home. Where it isn't at a point to lie at, for want of
    /// memory, the run gives up. What there is for its worker then is found under the same lock.
    pub(crate) fn lay<R: Wait, G: Gate>(
        &self,
        rt: &R,
        number: usize,
        seat: &mut Seat<J, D>,
        strand: RightStrand<J, V>,
        supply: Supply<'_, Desk<J, D, V>, Kit<V>, KitsOf<J>, R>,
        gate: &G,
    ) -> Found<J, V>
        requires kits { kits_of strand.strand + supply.free ≡ most }
        ensures left { is_left result ≡ true → 0 < seat.new.left }
        ensures drained { seat.new.here ≡ None }
    {
        self.drain(rt, seat);
        let mut supply = supply;
        match Piece::lay(&self.scene, strand, &mut supply) {
            Ok(piece) => {
                let (share, kits, kept) = supply.into_parts();
                let desk = self.put(rt, piece, share, kits, kept);
                gate.at(number, Point::Laid);
                self.look(desk, number, seat, gate)
            }
            Err(_) => {
                supply.end();
                self.fail(rt, Failure::NoMemory);
                self.find(rt, number, seat, gate)
            }
        }
    }

    /// Lays a piece down under the lock, which has that share and so many kits, and has the kit go home that was kept for it. The lock stays with
    /// who lays it.
    fn put<R: Wait>(
        &self,
        rt: &R,
        piece: Piece<J, V>,
        share: Share<KitsOf<J>>,
        kits: usize,
        kept: Option<Kit<V>>,
    ) -> MutexGuard<'_, Desk<J, D, V>>
        requires one { share.parts ≡ 1 }
        requires counted { share.amount ≡ spare_count kept + kits }
        requires fits { IfSome kept (λ k. k ≡ J.setting.kinds) }
        requires kits { kits ≡ kits_of piece.strand }
    {
        let mut share = share;
        let mut desk = self.at_desk(rt);
        desk.take_home(kept, &mut share);
        desk.lay(self.alloc, piece, share, kits);
        desk
    }

    /// The run gives up.
    fn fail<R: Wait>(&self, rt: &R, failure: Failure)
        requires right { is_right failure ≡ true }
        requires near { is_far failure ≡ false }
    {
        self.at_desk(rt).fail(failure);
        self.note(true);
    }

    /// Whether it was noted beside the lock that the run has given up.
    pub(crate) fn has_given_up(&self) -> bool {
        self.gave_up.load(Ordering::Relaxed)
    }

    /// Notes beside the lock whether the run has given up.
    fn note(&self, has_failed: bool) {
        if has_failed {
            self.gave_up.store(true, Ordering::Relaxed);
        }
    }
}

impl<'a, J: Run + Ledger + Stocked + Send, D: Deques, V: View> Floor<'a, J, D, V> {
    /// The floor of a run of the program on the tables over the records, and a seat for each deque. Refused where no kit is free,
    /// or for want of memory; the pool is handed back.
    pub fn new(
        alloc: Global,
        program: &'a Checked,
        tables: &'a Tables,
        records: &'a Records,
        pool: Pool<Kit<V>>,
        deques: NewDeques<J>,
    ) -> Result<(Floor<'a, J, D, V>, Vec<Seat<J, D>>), (StartError, Pool<Kit<V>>)>
        requires same { setting_with program.now tables.now.tables [] records.now ≡ J.setting }
        requires names { program.now.tables ≡ columned_of tables.now.tables }
        requires sound { AreSound (revised_of program.now) program.now.tables program.now.kinds
            records.now }
        requires values { HaveValues program.now.kinds records.now }
        requires in_step { IsInStep tables.now.tables records.now }
        requires kinds { All (λ k. k ≡ J.setting.kinds) pool.kits }
        requires total { pool.total ≡ J.total }
        requires begun { length pool.kits ≡ J.begun }
        requires named { D.deques ≡ deques }
        ensures kits { IfOk result (λ r. r.0.kits ≡ length pool.kits) }
        ensures some { IfOk result (λ _. 0 < length pool.kits) }
        ensures seats { IfOk result (λ r. length r.1.items ≡ length deques) }
        ensures none_left { IfOk result (λ r. All (λ seat. seat.left ≡ 0) r.1.items) }
        ensures refused { IfErr result (λ e. CannotStart pool e.0) }
        ensures handed_back { IfErr result (λ e. e.1 ≡ pool) }
    {
        let kits = pool.free();
        if kits == 0 {
            return Err((StartError::NoKit, pool));
        }
        let scene = Scene::new(program, tables, records);
        let parted = parted_by(deques.deques.len());
        let (parts, seats, ledger) = match Parts::new(alloc, deques) {
            Ok(begun) => begun,
            Err(AllocError) => return Err((StartError::NoMemory, pool)),
        };
        match first_of(alloc, &scene, pool) {
            Ok((first, pool)) => {
                let (depot, share) = Depot::new(RightPool::new(pool), ledger);
                let desk = Desk::new(parts, Held::new(first, share), depot);
                let floor = Floor {
                    alloc,
                    scene,
                    desk: CachePadded::new(Mutex::new(desk)),
                    gave_up: AtomicBool::new(false),
                    is_alone: AtomicBool::new(false),
                    bell: CachePadded::new(Bell::new()),
                    kits,
                    has_records: !records.is_empty(),
                    parted,
                };
                Ok((floor, seats))
            }
            Err(refused) => Err(refused),
        }
    }

    /// The kits that are home, of a run that is given up.
    pub fn into_pool(self) -> Pool<Kit<V>>
        ensures kinds { All (λ k. k ≡ J.setting.kinds) result.kits }
        ensures total { result.total ≡ J.total }
    {
        self.desk.into_inner().into_inner().into_pool().into_pool()
    }

    /// The answer of a run that the workers on these seats have left, and which none borrows any more; the kits that are home, the
    /// new records of a run that has finished, and what changed the list of strands. The error is that the list refused a worker.
    pub fn finish(
        self,
        seats: Vec<Seat<J, D>>,
    ) -> Result<(RunAnswer, Pool<Kit<V>>, Vec<Record>, Vec<BookStep>), (Mismatch, Pool<Kit<V>>)>
        requires some { 0 < length seats.items }
        requires left { All (λ seat. 0 < seat.left) seats.items }
        ensures elision { IfOk result (λ r. AnswersElision J.setting r.0) }
        ensures come { IfOk result (λ r. IsGiven r.0) }
        ensures recorded { IfOk result (λ r. HasRecorded J.setting r.0 r.2.items) }
        ensures alone { IfOk result (λ r. IsAlone r.0 r.2.items) }
        ensures values { IfOk result (λ r. HaveValues J.setting.kinds r.2.items) }
        ensures history { IfOk result (λ r. HasHistory r.0 (history r.3.items)) }
        ensures home { IfOk result (λ r. HasEnded r.0 → length r.1.kits ≡ self.entry.kits) }
        ensures kinds { IfOk result (λ r. All (λ k. k ≡ J.setting.kinds) r.1.kits) }
        ensures total { IfOk result (λ r. r.1.total ≡ J.total) }
        ensures refusal { IfErr result (λ e. is_refusal e.0.refusal ≡ true) }
        // A call of the book refused a worker so, and none refuses two strands that are apart.
        ensures refused { IfErr result (λ e. WasRefused e.0.refusal) }
        ensures near { IfErr result (λ e. is_apart e.0.refusal ≡ false) }
        ensures kinds_back { IfErr result (λ e. All (λ k. k ≡ J.setting.kinds) e.1.kits) }
        ensures total_back { IfErr result (λ e. e.1.total ≡ J.total) }
    {
        let (ran, pool) = self.end(seats);
        match ran {
            Ok(ended) => Ok((ended.answer, pool, ended.tally.into_records(), ended.steps)),
            Err(mismatch) => Err((mismatch, pool)),
        }
    }

    /// How a run has ended that the workers on these seats have left, and the kits that are home.
    pub(crate) fn end(self, seats: Vec<Seat<J, D>>) -> (Result<Ended, Mismatch>, Pool<Kit<V>>)
        requires some { 0 < length seats.items }
        requires left { All (λ seat. 0 < seat.left) seats.items }
        ensures end { IfOk result.0 (IsEnd J.setting) }
        ensures refusal { IfErr result.0 (λ m. is_refusal m.refusal ≡ true) }
        ensures refused { IfErr result.0 (λ m. WasRefused m.refusal) }
        ensures near { IfErr result.0 (λ m. is_apart m.refusal ≡ false) }
        ensures home { IfOk result.0 (λ e. HasEnded e.answer → length result.1.kits ≡ self.entry.kits) }
        ensures kinds { All (λ k. k ≡ J.setting.kinds) result.1.kits }
        ensures total { result.1.total ≡ J.total }
    {
        let mut seats = seats;
        let (ran, pool) = match seats.pop() {
            Some(seat) => self.close(seat),
            None => unreachable!(),
        };
        let pool = pool.into_pool();
        match ran {
            Ok(ended) => (Ok(ended), pool),
            Err(mismatch) => (Err(mismatch), pool),
        }
    }

    /// How the run has ended, and the pool, once a worker has left.
    fn close(self, seat: Seat<J, D>) -> (Result<Ended, Mismatch>, RightPool<KitsOf<J>, Kit<V>>)
        requires left { 0 < seat.left }
        ensures end { IfOk result.0 (IsEnd J.setting) }
        ensures refusal { IfErr result.0 (λ m. is_refusal m.refusal ≡ true) }
        ensures refused { IfErr result.0 (λ m. WasRefused m.refusal) }
        ensures near { IfErr result.0 (λ m. is_apart m.refusal ≡ false) }
        ensures home { IfOk result.0 (λ e. HasEnded e.answer → result.1 ≡ self.entry.kits) }
    {
        let Floor {
            alloc,
            scene,
            desk,
            ..
        } = self;
        let desk = desk.into_inner().into_inner();
        desk.close(alloc, &scene, seat)
    }
}
