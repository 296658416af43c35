//! What stands under the one lock.
ghost use Rattle.std.specs.Prelude.{◌≡◌, ◌+◌, ◌<◌, ◌≤◌, ◌==◌, ◌||◌, true, false, None, Some, All, length, IfSome, IfOk, IfErr, IsNone};
ghost use Rattle.std.specs.Option.{ForNone};
ghost use Rattle.sync_fold.specs.Refusals.{WasRefused, is_apart};
ghost use Rattle.sync_fold.specs.Counts.{held_among, kits_laid, kits_of};
ghost use Rattle.numbered_runs.specs.Come.{HasEnded};
ghost use Rattle.worker_seats.specs.Balances.{Balances, most, spare_count};
ghost use Rattle.worker_seats.specs.Ends.{IsEnd};
ghost use Rattle.strand_list.specs.Pages.{shown};
ghost use Rattle.threaded_driver.specs.Finds.{is_left};
ghost use Rattle.threaded_driver.specs.Folds.{has_pair};
ghost use Rattle.worker_seats.specs.Over.{is_far, is_over, is_right, is_refusal, is_noted, notes_far, has_failed};
ghost use Rattle.worker_seats.specs.declared.failure.Failure.TheVariants as reason;

use crate::found::Found;
use numbered_runs::step::{State, StrandLine};
use right_strands::laid::Piece;
use right_strands::run::{Run, Scene};
use right_strands::spare::Spare;
use std::alloc::{AllocError, Global};
use std::sync::ledger::{Blank, Book as Count, Ledger, Share};
use stealing_deques::{Deques, ThiefEnd, all_ends};
use strand_list::lines::{is_done, is_waiting};
use sync_fold::{Book, Mismatch};
use view_pool::{Kit, View};
use worker_seats::beginning::{Blanks, NewDeques};
use worker_seats::depot::Depot;
use worker_seats::ended::Ended;
use worker_seats::ending::outcome_of;
use worker_seats::failure::{Failure, is_over};
use worker_seats::held::Held;
use worker_seats::kits::{KitsOf, RightPool, Stocked};
use worker_seats::seat::{Seat, seats_of};
use worker_seats::supply::Shelf;
use worker_seats::table::Table;
use worker_seats::waiting::Waiting;

/// The list of strands and the kits, the thieves' ends of the deques by their numbers, why the run gave up, and how many workers
/// have left. The numbers of the deques stand in the order in which their workers came. The first strand lies there until the
/// first worker comes; the list says that a worker holds it.
#[derive(Drop)]
pub(crate) struct Desk<J: Run + Ledger + Stocked + Send, D: Deques, V: View> {
    table: Table<J, V>,
    first: Option<Held<J, V>>,
    came: Vec<usize>,
    deques: Vec<ThiefEnd<Waiting<J>, D>>,
    failure: Option<Failure>,
    left: u64,
    leavers: Count<J>,
    ghost counted: { left ≡ leavers.total },
    // A worker leaves only where the run is over.
    ghost over: { ((left == 0) || is_over table.book failure) ≡ true },
    ghost noted: { is_noted failure ≡ true },
    // No worker folds two strands that are apart.
    ghost near: { notes_far failure ≡ false },
    // Unless the run has given up, no kit is lost.
    ghost home: { ForNone failure (Balances table.depot table.book.laid) },
}

/// What a desk begins with beside the first strand and the kits: the list of that strand alone, the thieves' ends, and the count of
/// those that have left.
#[derive(Drop)]
pub(crate) struct Parts<J: Run + Ledger + Stocked + Send, D: Deques, V: View> {
    book: Book<J, V>,
    came: Vec<usize>,
    deques: Vec<ThiefEnd<Waiting<J>, D>>,
    leavers: Count<J>,
}

impl<J: Run + Ledger + Stocked + Send, D: Deques, V: View> Parts<J, D, V> {
    /// The parts of a run with these deques, a seat for each of them, and the new ledger of its kits. Want of memory is the only
    /// error.
    pub(crate) fn new(
        alloc: Global,
        deques: NewDeques<J>,
    ) -> Result<(Parts<J, D, V>, Vec<Seat<J, D>>, Blank), AllocError>
        requires named { D.deques ≡ deques }
        ensures none { IfOk result (λ r. r.0.leavers.total ≡ 0) }
        ensures held { IfOk result (λ r. (held_among r.0.book.laid ≡ 1) × (kits_laid r.0.book.laid ≡ 0)) }
        ensures count { IfOk result (λ r. length r.1.items ≡ length deques) }
        ensures none_left { IfOk result (λ r. All (λ seat. seat.left ≡ 0) r.1.items) }
        ensures ledger { IfOk result (λ r. (r.2.name ≡ J.ledger) × (r.2.parts ≡ most)) }
    {
        let NewDeques { deques, blanks } = deques;
        let Blanks { leavers, kits } = blanks;
        let (owners, deques) = all_ends::<Waiting<J>, D>(alloc, deques)?;
        let book = Book::start(alloc)?;
        let came = Vec::with_capacity(alloc, deques.len())?;
        let (leavers, share) = leavers.open::<J>();
        let seats = seats_of(alloc, owners, share)?;
        let parts = Parts {
            book,
            came,
            deques,
            leavers,
        };
        Ok((parts, seats, kits))
    }
}

/// Whether there are neighbours to fold, as far as their states say.
fn has_pair(lines: &[StrandLine]) -> bool
    ensures pair { result ≡ has_pair (shown lines.now) }
{
    let mut is_behind_done = false;
    for line in lines {
        if is_behind_done && is_waiting(line.state) {
            return true;
        }
        is_behind_done = is_done(line.state);
    }
    false
}

/// Whether the strand behind the one that the worker holds waits for one that is done.
fn waits_behind(lines: &[StrandLine], worker: usize) -> bool {
    let mut is_next = false;
    for line in lines {
        if is_next {
            return is_waiting(line.state);
        }
        is_next = is_held_by(line.state, worker);
    }
    false
}

/// Whether that worker holds a strand of that state.
fn is_held_by(state: State, worker: usize) -> bool {
    match state {
        State::Held(holder) => holder == worker,
        State::Ended | State::Stalled | State::Faulted | State::Finished => false,
    }
}

/// Notes why a run gives up; the first reason stays.
fn note(noted: &mut Option<Failure>, failure: Failure)
    requires right { is_right failure ≡ true }
    requires near { is_far failure ≡ false }
    requires noted { is_noted noted.old ≡ true }
    requires none_far { notes_far noted.old ≡ false }
    ensures first { noted.old ≡ None → noted.new ≡ Some failure }
    ensures stays { has_failed noted.old ≡ true → noted.new ≡ noted.old }
    ensures failed { has_failed noted.new ≡ true }
    ensures noted { is_noted noted.new ≡ true }
    ensures none_far { notes_far noted.new ≡ false }
{
    if noted.is_none() {
        *noted = Some(failure);
    }
}

impl<J: Run + Ledger + Stocked + Send, D: Deques, V: View> Desk<J, D, V> {
    /// The desk of a run that begins with that strand.
    pub(crate) fn new(
        parts: Parts<J, D, V>,
        first: Held<J, V>,
        depot: Depot<KitsOf<J>, Kit<V>>,
    ) -> Desk<J, D, V>
        requires none { parts.leavers.total ≡ 0 }
        requires balanced { Balances depot parts.book.laid }
    {
        let Parts {
            book,
            came,
            deques,
            leavers,
        } = parts;
        Desk {
            table: Table { book, depot },
            first: Some(first),
            came,
            deques,
            failure: None,
            left: 0,
            leavers,
        }
    }

    /// The number of a worker that comes with its deque, from 0 on, and the first strand for the first one.
    pub(crate) fn come(&mut self, deque: usize) -> (usize, Option<Held<J, V>>) {
        let number = self.came.len();
        if self.came.push(deque).is_err() {
            self.fail(Failure::NoMemory);
        }
        (number, self.first.take())
    }

    /// The pool by itself.
    pub(crate) fn into_pool(self) -> RightPool<KitsOf<J>, Kit<V>> {
        let Desk { table, .. } = self;
        table.into_pool()
    }

    /// How the run has ended, and the pool, once a worker has left.
    pub(crate) fn close(
        mut self,
        alloc: Global,
        scene: &Scene<'_, J>,
        mut seat: Seat<J, D>,
    ) -> (Result<Ended, Mismatch>, RightPool<KitsOf<J>, Kit<V>>)
        requires left { 0 < seat.left }
        ensures end { IfOk result.0 (IsEnd J.setting) }
        ensures refusal { IfErr result.0 (λ m. is_refusal m.refusal ≡ true) }
        ensures refused { IfErr result.0 (λ m. WasRefused m.refusal) }
        ensures near { IfErr result.0 (λ m. is_apart m.refusal ≡ false) }
        ensures noted { IfErr result.0 (λ m. self.failure ≡ Some (reason.Refused m.refusal)) }
        ensures home { IfOk result.0 (λ e. HasEnded e.answer → result.1 ≡ J.begun) }
    {
        seat.audit(&mut self.leavers);
        self.end(alloc, scene)
    }

    /// How a run that is over has ended, and the pool.
    fn end(
        self,
        alloc: Global,
        scene: &Scene<'_, J>,
    ) -> (Result<Ended, Mismatch>, RightPool<KitsOf<J>, Kit<V>>)
        requires over { is_over self.table.book self.failure ≡ true }
        ensures end { IfOk result.0 (IsEnd J.setting) }
        ensures refusal { IfErr result.0 (λ m. is_refusal m.refusal ≡ true) }
        ensures refused { IfErr result.0 (λ m. WasRefused m.refusal) }
        ensures near { IfErr result.0 (λ m. is_apart m.refusal ≡ false) }
        ensures noted { IfErr result.0 (λ m. self.failure ≡ Some (reason.Refused m.refusal)) }
        ensures home { IfOk result.0 (λ e. HasEnded e.answer → result.1 ≡ J.begun) }
    {
        let Desk { table, failure, .. } = self;
        outcome_of(alloc, scene, table, failure)
    }

    /// Whether the run is at its end, or has given up.
    fn is_over(&self) -> bool
        ensures over { result ≡ is_over self.now.table.book self.now.failure }
    {
        is_over(&self.failure, self.table.book.is_at_end())
    }

    /// Notes why the run gives up; the first reason stays.
    pub(crate) fn fail(&mut self, failure: Failure)
        requires right { is_right failure ≡ true }
        requires near { is_far failure ≡ false }
        ensures left { self.new.left ≡ self.old.left }
        ensures first { self.old.failure ≡ None → self.new.failure ≡ Some failure }
        ensures stays { has_failed self.old.failure ≡ true → self.new.failure ≡ self.old.failure }
    {
        note(&mut self.failure, failure);
    }

    /// Whether the run has given up.
    pub(crate) fn has_failed(&self) -> bool {
        self.failure.is_some()
    }

    /// Whether the strand behind the one that the worker holds waits for that one to be done.
    pub(crate) fn has_waiting_behind(&self, worker: usize) -> bool {
        waits_behind(self.table.book.strands(), worker)
    }

    /// Two boxes of folded strands, as far as there are any, for a worker that leaves and lets them go.
    pub(crate) fn take_spares(&mut self) -> (Option<Spare<V>>, Option<Spare<V>>) {
        self.table.book.take_spares()
    }

    /// Unbinds a worker's seat, where all that the worker has pushed was popped or stolen: whether it was.
    pub(crate) fn unbind_if_drained(&mut self, seat: &mut Seat<J, D>) -> bool
        ensures drained { result ≡ true → seat.new.here ≡ None }
        ensures same { result ≡ false → seat.new ≡ seat.old }
    {
        match self.deques.get_mut(seat.deque()) {
            Some(thief) => seat.unbind_if_drained(thief),
            None => false,
        }
    }

    /// The kit goes home that a worker has kept beside the lock, if there is one; it counts for that share.
    pub(crate) fn take_home(&mut self, kept: Option<Kit<V>>, share: &mut Share<KitsOf<J>>)
        requires fits { IfSome kept (λ k. k ≡ J.setting.kinds) }
        requires some { spare_count kept ≤ share.old.amount }
        ensures counted { spare_count kept + share.new.amount ≡ share.old.amount }
        ensures parts { share.new.parts ≡ share.old.parts }
    {
        if let Some(kit) = kept {
            self.give_kit(kit, share);
        }
    }

    /// Lays a strand down that its worker has nothing more to do with, which has that share and so many kits; one of a run that is
    /// over is let go.
    pub(crate) fn lay(
        &mut self,
        alloc: Global,
        piece: Piece<J, V>,
        share: Share<KitsOf<J>>,
        kits: usize,
    )
        requires one { share.parts ≡ 1 }
        requires counted { share.amount ≡ kits }
        requires kits { kits ≡ kits_of piece.strand }
    {
        if self.is_over() {
            drop(piece);
        } else {
            self.lay_down(alloc, piece, share, kits);
        }
    }

    /// Lays a strand down in a run that isn't over.
    fn lay_down(&mut self, alloc: Global, piece: Piece<J, V>, share: Share<KitsOf<J>>, kits: usize)
        requires going_on { is_over self.old.table.book self.old.failure ≡ false }
        requires one { share.parts ≡ 1 }
        requires counted { share.amount ≡ kits }
        requires kits { kits ≡ kits_of piece.strand }
    {
        if let Err(failure) = self.table.lay(alloc, piece, share, kits) {
            note(&mut self.failure, failure);
        }
    }

    /// What there is for a worker without a strand. It leaves where the run is over, else it folds two neighbours, else it steals.
    pub(crate) fn find(
        &mut self,
        alloc: Global,
        scene: &Scene<'_, J>,
        worker: usize,
        seat: &mut Seat<J, D>,
    ) -> Found<J, V>
        ensures left { is_left result ≡ true → 0 < seat.new.left }
        ensures here { seat.new.here ≡ seat.old.here }
    {
        if self.is_over() {
            return if self.leave(seat) {
                Found::Left
            } else {
                Found::Nothing
            };
        }
        // Most looks end here, or find nothing to steal.
        if !has_pair(self.table.book.strands()) {
            return self.steal(alloc, scene, worker);
        }
        match self.fold(alloc, scene, worker) {
            Some(found) => found,
            None => self.steal(alloc, scene, worker),
        }
    }

    /// Counts a worker among those that have left, where there is room to count it.
    fn leave(&mut self, seat: &mut Seat<J, D>) -> bool
        requires over { is_over self.old.table.book self.old.failure ≡ true }
        ensures left { result ≡ true → 0 < seat.new.left }
        ensures here { seat.new.here ≡ seat.old.here }
    {
        if self.left == u64::MAX {
            return false;
        }
        seat.leave(&mut self.leavers);
        self.left += 1;
        true
    }

    /// Folds the first neighbours that may be folded, if there are any. It is no part of who looks for a strand, mostly in vain: the room
    /// for what it moves would be cleared at each look.
    #[inline(never)]
    fn fold(&mut self, alloc: Global, scene: &Scene<'_, J>, worker: usize) -> Option<Found<J, V>>
        requires none_left { self.old.left ≡ 0 }
        requires going { self.old.failure ≡ None }
        ensures none_left { self.new.left ≡ 0 }
        ensures going { IsNone result → self.new.failure ≡ None }
        ensures stays { IfSome result (λ found. is_left found ≡ false) }
    {
        match self.table.fold(alloc, scene, worker) {
            Some(Ok(held)) => Some(Found::Folded(held)),
            Some(Err(failure)) => {
                note(&mut self.failure, failure);
                Some(Found::Nothing)
            }
            None => None,
        }
    }

    /// A stolen strand, for which a kit lies ready where there are plenty: most want one soon, and would take the lock for it.
    fn equipped(&mut self, held: Held<J, V>) -> Held<J, V>
        ensures strand { result ≡ held }
    {
        if !self.has_plenty() {
            return held;
        }
        let (strand, mut share, ready) = held.into_parts();
        if let Some(kit) = ready {
            return Held::with_kit(strand, share, Some(kit));
        }
        match self.take_kit(&mut share) {
            Some(kit) => Held::with_kit(strand, share, Some(kit)),
            None => Held::new(strand, share),
        }
    }

    /// Takes a kit, and then the oldest continuation of a worker that has one. The strand has another kit ready where there are plenty.
    fn steal(&mut self, alloc: Global, scene: &Scene<'_, J>, worker: usize) -> Found<J, V>
        requires none_left { self.old.left ≡ 0 }
        requires going { self.old.failure ≡ None }
        ensures stays { is_left result ≡ false }
    {
        match self
            .table
            .steal(alloc, scene, &mut self.deques, &self.came, worker)
        {
            Ok(Some(held)) => Found::Stolen(self.equipped(held)),
            Ok(None) => Found::Nothing,
            Err(failure) => {
                note(&mut self.failure, failure);
                Found::Nothing
            }
        }
    }
}

impl<J: Run + Ledger + Stocked + Send, D: Deques, V: View> Shelf<Kit<V>, KitsOf<J>>
    for Desk<J, D, V> {
    ghost fits = { λ k. k ≡ J.setting.kinds };

    fn take_kit(&mut self, share: &mut Share<KitsOf<J>>) -> Option<Kit<V>> {
        self.table.depot.lend(share)
    }

    fn give_kit(&mut self, kit: Kit<V>, share: &mut Share<KitsOf<J>>) {
        // There is room for each kit of a run that goes on.
        let _ = self.table.depot.take_back(kit, share);
    }

    fn has_plenty(&self) -> bool {
        self.table.depot.free() / 2 >= self.deques.len()
    }
}
