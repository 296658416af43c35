//! The book that workers share.
use crate::folds::{first_fold, fold_kept, places_at};
use crate::kept::{keep, put_behind, take_behind};
use crate::laid::{Laid, ends_alone, into_alone, may_touch_at};
use crate::refusal::Refusal;
use numbered_runs::step::{BookStep, Place, StrandLine};
use positions::answer::RunAnswer;
use right_strands::laid::{Piece, Tally};
use right_strands::pair::Pair;
use right_strands::run::{Run, Scene};
use right_strands::spare::{Spare, Spares};
use right_strands::strand::RightStrand;
use right_strands::task::RightTask;
use std::alloc::{AllocError, Global};
use std::marker::Model;
use strand_list::chronicle::Chronicle;
use strand_list::error::BookError;
use strand_list::lines::held_place;
use view_pool::{Kit, KitSource, View};

/// The strands of the run J, the steps that made their list, and the strands that were laid down, one a line in the lines' order.
/// The history is legal, and its replay is the list that stands. What strands leave that are folded is kept for those that are stolen.
#[derive(Drop)]
pub struct Book<J: Run, V: View = Box<dyn View>> {
    chronicle: Chronicle,
    laid: Vec<Laid<Piece<J, V>, Pair<J, V>>>,
    spares: Spares<V>,
}

impl<J: Run, V: View> Model for Book<J, V> {
    ghost use Rattle.sync_fold.specs.Books.{PlainBook, IsBook};
    ghost use Rattle.strand_list.specs.Chronicles.{told};

    ghost Value = { PlainBook };

    ghost view = { λ b. record { chronicle = told b.chronicle; laid = b.laid.items } };

    ghost invariant = { λ b. IsBook (told b.chronicle) b.laid.items };
}

impl<J: Run, V: View> Book<J, V> {
    ghost use Rattle.std.specs.Prelude.{◌≡◌, ◌⊎◌, ◌+◌, ◌^◌, ◌<◌, ◌≤◌, ◌∷◌, [], suc, true, false, List, length, drop, Some, None, IfSome, IfNone, IfOk};
    ghost use Rattle.std.specs.Prelude.{IfErr, OnOk, OnErr, MatchOption};
    ghost use Rattle.monoid_laws.specs.declared.Kind.{Kind};
    ghost use Rattle.meaning.specs.Strands.{Split, Fold, stepped, replayed};
    ghost use Rattle.record_theory.specs.Named.{HaveValues};
    ghost use Rattle.numbered_runs.specs.Named.{history as steps_of};
    ghost use Rattle.positions.specs.Moves.{stolen};
    ghost use Rattle.right_strands.specs.Laid.{PlainPiece, AnswersElision, IsGiven, HasRecorded};
    ghost use Rattle.sync_fold.specs.declared.laid.Laid.TheVariants.{Whole};
    ghost use Rattle.strand_list.specs.Pages.{shown, position, held_place};
    ghost use Rattle.strand_list.specs.Laying.{laying_step};
    ghost use Rattle.strand_list.specs.Replays.{LeavesRootAlone};
    ghost use Rattle.strand_list.specs.Chronicled.{Took, IsRefusedBy, unless_allowed, first_chronicle, split_refusal, laying_refusal};
    ghost use Rattle.sync_fold.specs.Refusals.{HoldsNone, TookHeld, held_refusal, is_apart};
    ghost use Rattle.sync_fold.specs.Books.{IsBook, FirstBecome, FirstStay, FoldsAny, FoldsFirst, PlacesAt, first_fold, touch, BecomeOne};
    ghost use Rattle.sync_fold.specs.Books.{KeepsStrands, begins_at, lay_refusal, is_ended, fold_refusal};
    ghost use Rattle.sync_fold.specs.Counts.{HoldsMore, LaysDown, TakesUp, held_among, kits_laid};

    /// The first strand, held by worker 0, with no history.
    pub fn start(alloc: Global) -> Result<Book<J, V>, AllocError>
        ensures first { IfOk result (λ b. b.chronicle ≡ first_chronicle) }
        ensures going { IfOk result (λ b. is_ended b ≡ false) }
        ensures none { IfOk result (λ b. (held_among b.laid ≡ 1) × (kits_laid b.laid ≡ 0)) }
    {
        let mut laid = Vec::new(alloc);
        laid.push(Laid::Nothing)?;
        Ok(Book {
            chronicle: Chronicle::start(alloc)?,
            laid,
            spares: Spares::new(alloc),
        })
    }

    /// What the type keeps.
    pub fn upheld(&self)
        ensures book { IsBook self.now.chronicle self.now.laid }
    {
        let _ = &self.laid;
    }

    /// How many strands workers hold: as many as a list is long at most, and none where the run is at its end.
    pub fn counted(&self)
        ensures few { held_among self.now.laid < 2 ^ 64 }
        ensures none { is_ended self.now ≡ true → held_among self.now.laid ≡ 0 }
    {
        let _ = self.laid.len();
    }

    /// The strands in serial order.
    pub fn strands(&self) -> &[StrandLine]
        ensures lines { shown result.now ≡ self.now.chronicle.page.lines }
    {
        self.chronicle.strands()
    }

    /// The steps so far.
    pub fn history(&self) -> &[BookStep]
        ensures steps { steps_of result.now ≡ self.now.chronicle.history }
        ensures legal { replayed self.now.chronicle.history ≡ Some self.now.chronicle.page }
    {
        self.chronicle.history()
    }

    /// The place of the strand that the worker holds.
    pub fn held_by(&self, worker: usize) -> Option<&[usize]>
        ensures held { MatchOption result (held_place worker self.now.chronicle.page.lines ≡ None)
            (λ place. held_place worker self.now.chronicle.page.lines ≡ Some place.now) }
    {
        held_place(self.chronicle.strands(), worker)
    }

    /// A thief goes on with a part of the victim's strand, from the new place on.
    pub fn split(
        &mut self,
        alloc: Global,
        victim: Place,
        new: &[usize],
        thief: usize,
    ) -> Result<(), Refusal>
        ensures taken { OnOk result
            (Took self.old.chronicle (Split victim.items new.now thief) self.new.chronicle) }
        ensures counted { OnOk result (HoldsMore self.old.laid self.new.laid) }
        ensures refused { IfErr result
            (IsRefusedBy (split_refusal self.old.chronicle.page victim.items new.now thief)) }
        ensures same { OnErr result (self.new ≡ self.old) }
    {
        // What the type keeps: so a refusal is one that a call of a book gives.
        self.upheld();
        match self.try_split(alloc, victim, new, thief) {
            Ok(()) => Ok(()),
            Err(error) => Err(Refusal::of(error)),
        }
    }

    /// A thief goes on with a part of the strand that the victim holds, from the new place on.
    pub fn split_held(
        &mut self,
        alloc: Global,
        victim: usize,
        new: &[usize],
        thief: usize,
    ) -> Result<(), Refusal>
        ensures taken { OnOk result
            (TookHeld self.old.chronicle victim new.now thief self.new.chronicle) }
        ensures counted { OnOk result (HoldsMore self.old.laid self.new.laid) }
        ensures refused { IfErr result
            (IsRefusedBy (held_refusal self.old.chronicle.page victim new.now thief)) }
        ensures near { IfErr result (λ e. is_apart e ≡ false) }
        ensures same { OnErr result (self.new ≡ self.old) }
    {
        // What the type keeps: so a refusal is one that a call of a book gives.
        self.upheld();
        match self.place_held(alloc, victim) {
            Ok(from) => self.split(alloc, from, new, thief),
            Err(error) => Err(Refusal::of(error)),
        }
    }

    /// The place of the strand that the worker holds, by itself.
    fn place_held(&self, alloc: Global, worker: usize) -> Result<Place, BookError>
        ensures held { IfOk result
            (λ place. held_place worker self.now.chronicle.page.lines ≡ Some place.items) }
        ensures none { IfErr result
            (HoldsNone (held_place worker self.now.chronicle.page.lines)) }
    {
        match self.held_by(worker) {
            Some(place) => match Vec::from_slice(alloc, place) {
                Ok(place) => Ok(place),
                Err(AllocError) => Err(BookError::NoMemory),
            },
            None => Err(BookError::NoStrand),
        }
    }

    /// A thief goes on with a part of the victim's strand, or a plain refusal says why not.
    fn try_split(
        &mut self,
        alloc: Global,
        victim: Place,
        new: &[usize],
        thief: usize,
    ) -> Result<(), BookError>
        ensures taken { OnOk result
            (Took self.old.chronicle (Split victim.items new.now thief) self.new.chronicle) }
        ensures counted { OnOk result (HoldsMore self.old.laid self.new.laid) }
        ensures refused { IfErr result
            (IsRefusedBy (split_refusal self.old.chronicle.page victim.items new.now thief)) }
        ensures same { OnErr result (self.new ≡ self.old) }
    {
        match self.chronicle.find(&victim) {
            Some(k) => self.split_at(alloc, k, victim, new, thief),
            None => Err(BookError::NoStrand),
        }
    }

    /// A thief goes on with a part of the strand in the line of that number.
    fn split_at(
        &mut self,
        alloc: Global,
        k: usize,
        victim: Place,
        new: &[usize],
        thief: usize,
    ) -> Result<(), BookError>
        requires here { k ≡ position victim.items self.old.chronicle.page.lines }
        requires within { k < length self.old.chronicle.page.lines }
        ensures taken { OnOk result
            (Took self.old.chronicle (Split victim.items new.now thief) self.new.chronicle) }
        ensures counted { OnOk result (HoldsMore self.old.laid self.new.laid) }
        ensures refused { IfErr result
            (IsRefusedBy (split_refusal self.old.chronicle.page victim.items new.now thief)) }
        ensures same { OnErr result (self.new ≡ self.old) }
    {
        if put_behind(&mut self.laid, k).is_err() {
            return Err(BookError::NoMemory);
        }
        match self.chronicle.split(alloc, victim, new, thief) {
            Ok(()) => Ok(()),
            Err(error) => {
                take_behind(&mut self.laid, k);
                Err(error)
            }
        }
    }

    /// The strand of a stolen continuation, where one has lain that was folded. Want of memory is the only error; it hands the continuation
    /// and the kit back.
    #[inline(always)]
    pub fn begin_stolen(
        &mut self,
        alloc: Global,
        scene: &Scene<'_, J>,
        task: RightTask<J>,
        kit: Kit<V>,
    ) -> Result<RightStrand<J, V>, (AllocError, RightTask<J>, Kit<V>)>
        requires kit { kit ≡ J.setting.kinds }
        ensures same { self.new ≡ self.old }
        ensures stolen { IfOk result (λ s. s.strand ≡ stolen J.setting.codes kit task.task) }
        ensures going { IfOk result (λ s. s.failed ≡ false) }
        ensures task_back { IfErr result (λ e. e.1 ≡ task) }
        ensures kit_back { IfErr result (λ e. e.2 ≡ kit) }
    {
        match self.spares.take(alloc) {
            Ok(spare) => RightStrand::stolen(scene, task, kit, spare),
            Err(error) => Err((error, task, kit)),
        }
    }

    /// Two boxes of folded strands, as far as there are any, for who lets them go.
    pub fn take_spares(&mut self) -> (Option<Spare<V>>, Option<Spare<V>>)
        ensures same { self.new ≡ self.old }
    {
        let first = self.spares.pop();
        (first, self.spares.pop())
    }

    /// The strand that a worker holds is laid down; it is handed back with a refusal.
    pub fn lay(&mut self, alloc: Global, piece: Piece<J, V>) -> Result<(), (Refusal, Piece<J, V>)>
        ensures taken { OnOk result
            (Took self.old.chronicle (laying_step piece.state (begins_at piece)) self.new.chronicle) }
        ensures counted { OnOk result (LaysDown piece.strand self.old.laid self.new.laid) }
        ensures refused { IfErr result
            (λ e. IsRefusedBy (lay_refusal self.old piece) e.0) }
        ensures near { IfErr result (λ e. is_apart e.0 ≡ false) }
        ensures same { OnErr result (self.new ≡ self.old) }
        ensures back { IfErr result (λ e. e.1 ≡ piece) }
    {
        // What the type keeps: so a refusal is one that a call of a book gives.
        self.upheld();
        match self.try_lay(alloc, piece) {
            Ok(()) => Ok(()),
            Err((error, piece)) => Err((Refusal::of(error), piece)),
        }
    }

    /// The strand that a worker holds is laid down, or a plain refusal says why not.
    fn try_lay(&mut self, alloc: Global, piece: Piece<J, V>) -> Result<(), (BookError, Piece<J, V>)>
        ensures taken { OnOk result
            (Took self.old.chronicle (laying_step piece.state (begins_at piece)) self.new.chronicle) }
        ensures counted { OnOk result (LaysDown piece.strand self.old.laid self.new.laid) }
        ensures refused { IfErr result
            (λ e. IsRefusedBy (lay_refusal self.old piece) e.0) }
        ensures same { OnErr result (self.new ≡ self.old) }
        ensures back { IfErr result (λ e. e.1 ≡ piece) }
    {
        match piece.begins_behind(alloc) {
            Ok(place) => self.lay_at(alloc, place, piece),
            Err(AllocError) => Err((BookError::NoMemory, piece)),
        }
    }

    /// The strand that a worker holds is laid down, which begins behind that place.
    fn lay_at(
        &mut self,
        alloc: Global,
        place: Place,
        piece: Piece<J, V>,
    ) -> Result<(), (BookError, Piece<J, V>)>
        requires place { place.items ≡ begins_at piece }
        ensures taken { OnOk result
            (Took self.old.chronicle (laying_step piece.state place.items) self.new.chronicle) }
        ensures counted { OnOk result (LaysDown piece.strand self.old.laid self.new.laid) }
        ensures refused { IfErr result
            (λ e. IsRefusedBy (laying_refusal self.old.chronicle.page piece.state place.items) e.0) }
        ensures same { OnErr result (self.new ≡ self.old) }
        ensures back { IfErr result (λ e. e.1 ≡ piece) }
    {
        let k = match self.chronicle.find(&place) {
            Some(k) => k,
            None => return Err((BookError::NoStrand, piece)),
        };
        match self.chronicle.lay(alloc, piece.state(), place) {
            Ok(()) => {
                keep(&mut self.laid, k, piece);
                Ok(())
            }
            Err(error) => Err((error, piece)),
        }
    }

    /// Whether two neighbours may be one strand, as far as what is kept of them says.
    fn may_touch(&self, left: &[usize], right: &[usize]) -> bool
        ensures may { result ≡ touch self.now left.now right.now }
    {
        match self.chronicle.find(left) {
            Some(k) => self.chronicle.are_neighbours(left, right) && may_touch_at(&self.laid, k),
            None => false,
        }
    }

    /// Two neighbours are one strand from then on, which the worker holds, and the kit of the right one is free. Where memory was
    /// refused the pair of them may stay in the left line, and the same fold goes on with it.
    pub fn fold_pair(
        &mut self,
        scene: &Scene<'_, J>,
        left: Place,
        right: Place,
        worker: usize,
    ) -> Result<(RightStrand<J, V>, Kit<V>), Refusal>
        ensures taken { OnOk result
            (Took self.old.chronicle (Fold left.items right.items worker) self.new.chronicle) }
        ensures joined { IfOk result
            (λ r. BecomeOne self.old left.items r.0.strand) }
        ensures going { IfOk result (λ r. r.0.failed ≡ false) }
        ensures kit { IfOk result (λ r. r.1 ≡ J.setting.kinds) }
        ensures counted { IfOk result (λ r. TakesUp r.0.strand self.old.laid self.new.laid) }
        ensures refused { IfErr result
            (IsRefusedBy (fold_refusal self.old left.items right.items worker)) }
        ensures same { OnErr result (self.new.chronicle ≡ self.old.chronicle) }
        ensures kept { IfErr result
            (λ e. KeepsStrands self.old left.items e self.new) }
    {
        // What the type keeps: so a refusal is one that a call of a book gives.
        self.upheld();
        match self.try_fold_pair(scene, left, right, worker) {
            Ok(joined) => Ok(joined),
            Err(error) => Err(Refusal::of(error)),
        }
    }

    /// Two neighbours become one strand, or a plain refusal says why not.
    fn try_fold_pair(
        &mut self,
        scene: &Scene<'_, J>,
        left: Place,
        right: Place,
        worker: usize,
    ) -> Result<(RightStrand<J, V>, Kit<V>), BookError>
        ensures taken { OnOk result
            (Took self.old.chronicle (Fold left.items right.items worker) self.new.chronicle) }
        ensures joined { IfOk result
            (λ r. BecomeOne self.old left.items r.0.strand) }
        ensures going { IfOk result (λ r. r.0.failed ≡ false) }
        ensures kit { IfOk result (λ r. r.1 ≡ J.setting.kinds) }
        ensures counted { IfOk result (λ r. TakesUp r.0.strand self.old.laid self.new.laid) }
        ensures refused { IfErr result
            (IsRefusedBy (fold_refusal self.old left.items right.items worker)) }
        ensures same { OnErr result (self.new.chronicle ≡ self.old.chronicle) }
        ensures kept { IfErr result
            (λ e. KeepsStrands self.old left.items e self.new) }
    {
        if !self.chronicle.has_both(&left, &right) {
            return Err(BookError::NoStrand);
        }
        if !self.may_touch(&left, &right) {
            return Err(BookError::NotNeighbour);
        }
        self.fold_at(scene, left, right, worker)
    }

    /// Two neighbours that may be one strand, as far as what is kept of them says, become one, or a pair.
    fn fold_at(
        &mut self,
        scene: &Scene<'_, J>,
        left: Place,
        right: Place,
        worker: usize,
    ) -> Result<(RightStrand<J, V>, Kit<V>), BookError>
        requires touch { touch self.old left.items right.items ≡ true }
        ensures taken { OnOk result
            (Took self.old.chronicle (Fold left.items right.items worker) self.new.chronicle) }
        ensures joined { IfOk result
            (λ r. BecomeOne self.old left.items r.0.strand) }
        ensures going { IfOk result (λ r. r.0.failed ≡ false) }
        ensures kit { IfOk result (λ r. r.1 ≡ J.setting.kinds) }
        ensures counted { IfOk result (λ r. TakesUp r.0.strand self.old.laid self.new.laid) }
        ensures refused { IfErr result
            (IsRefusedBy (unless_allowed (stepped self.old.chronicle.page (Fold left.items right.items worker)))) }
        ensures same { OnErr result (self.new.chronicle ≡ self.old.chronicle) }
        ensures kept { IfErr result
            (λ e. KeepsStrands self.old left.items e self.new) }
    {
        let k = match self.chronicle.find(&left) {
            Some(k) => k,
            None => return Err(BookError::NoStrand),
        };
        let step = match self.chronicle.prepare_fold(left, right, worker) {
            Ok(step) => step,
            Err(error) => return Err(error),
        };
        match fold_kept(scene, &mut self.laid, k, &mut self.spares) {
            Ok(joined) => {
                self.chronicle.fold(step);
                Ok(joined)
            }
            Err(AllocError) => {
                drop(step);
                Err(BookError::NoMemory)
            }
        }
    }

    /// Folds the first two neighbours that may be folded; None where there are none.
    pub fn fold_any(
        &mut self,
        alloc: Global,
        scene: &Scene<'_, J>,
        worker: usize,
    ) -> Option<Result<(RightStrand<J, V>, Kit<V>), Refusal>>
        ensures folded { FoldsAny self.old worker result self.new }
        ensures joined { IfSome result (λ r. IfOk r (λ s. FirstBecome self.old s.0.strand)) }
        ensures kept { IfSome result (λ r. IfErr r (λ e. FirstStay self.old e self.new)) }
        ensures going { IfSome result (λ r. IfOk r (λ s. s.0.failed ≡ false)) }
        ensures kit { IfSome result (λ r. IfOk r (λ s. s.1 ≡ J.setting.kinds)) }
        ensures counted { IfSome result
            (λ r. IfOk r (λ s. TakesUp s.0.strand self.old.laid self.new.laid)) }
        ensures none { IfNone result (self.new ≡ self.old) }
        ensures near { IfSome result (λ r. IfErr r (λ e. is_apart e ≡ false)) }
        ensures same { IfSome result (λ r. OnErr r (self.new.chronicle ≡ self.old.chronicle)) }
    {
        match first_fold(self.chronicle.strands(), &self.laid) {
            Some(k) => Some(self.fold_from(alloc, scene, k, worker)),
            None => None,
        }
    }

    /// Folds the strand of that number with the next one, where these are the first two that may be folded.
    fn fold_from(
        &mut self,
        alloc: Global,
        scene: &Scene<'_, J>,
        k: usize,
        worker: usize,
    ) -> Result<(RightStrand<J, V>, Kit<V>), Refusal>
        requires first { PlacesAt k self.old.chronicle.page.lines (first_fold self.old) }
        ensures folded { FoldsFirst self.old worker result self.new }
        ensures joined { IfOk result (λ r. FirstBecome self.old r.0.strand) }
        ensures kept { IfErr result (λ e. FirstStay self.old e self.new) }
        ensures going { IfOk result (λ r. r.0.failed ≡ false) }
        ensures kit { IfOk result (λ r. r.1 ≡ J.setting.kinds) }
        ensures counted { IfOk result (λ r. TakesUp r.0.strand self.old.laid self.new.laid) }
        ensures near { IfErr result (λ e. is_apart e ≡ false) }
        ensures same { OnErr result (self.new.chronicle ≡ self.old.chronicle) }
    {
        // What the type keeps: so the first two that may be folded lie beside each other.
        self.upheld();
        match places_at(alloc, self.chronicle.strands(), k) {
            Ok((left, right)) => self.fold_found(scene, left, right, worker),
            Err(AllocError) => Err(Refusal::without_memory()),
        }
    }

    /// Two neighbours that may be one strand, as was seen just now, are one from then on, which the worker holds. Where memory was refused
    /// they may stay as a pair.
    fn fold_found(
        &mut self,
        scene: &Scene<'_, J>,
        left: Place,
        right: Place,
        worker: usize,
    ) -> Result<(RightStrand<J, V>, Kit<V>), Refusal>
        requires touch { touch self.old left.items right.items ≡ true }
        ensures taken { OnOk result
            (Took self.old.chronicle (Fold left.items right.items worker) self.new.chronicle) }
        ensures joined { IfOk result
            (λ r. BecomeOne self.old left.items r.0.strand) }
        ensures going { IfOk result (λ r. r.0.failed ≡ false) }
        ensures kit { IfOk result (λ r. r.1 ≡ J.setting.kinds) }
        ensures counted { IfOk result (λ r. TakesUp r.0.strand self.old.laid self.new.laid) }
        ensures refused { IfErr result
            (IsRefusedBy (fold_refusal self.old left.items right.items worker)) }
        ensures same { OnErr result (self.new.chronicle ≡ self.old.chronicle) }
        ensures kept { IfErr result
            (λ e. KeepsStrands self.old left.items e self.new) }
    {
        // What the type keeps: so a refusal is one that a call of a book gives.
        self.upheld();
        match self.fold_at(scene, left, right, worker) {
            Ok(joined) => Ok(joined),
            Err(error) => Err(Refusal::of(error)),
        }
    }

    /// Whether one strand is left, which ends the run.
    pub fn is_at_end(&self) -> bool
        ensures ended { result ≡ is_ended self.now }
    {
        ends_alone(&self.laid)
    }

    /// The answer of the strand that is left, which is the elision's, its tally with its new records, and the history; every kit of it
    /// goes home where there is room for them all.
    pub fn end<K: KitSource<Kit<V>>>(
        self,
        scene: &Scene<'_, J>,
        alloc: Global,
        kits: &mut K,
    ) -> (RunAnswer, Tally, Vec<BookStep>)
        requires ended { is_ended self ≡ true }
        requires fits { K.fits J.setting.kinds kits.old }
        ensures elision { AnswersElision J.setting result.0 }
        ensures given { IsGiven result.0 }
        ensures recorded { HasRecorded J.setting result.0 result.1.made }
        ensures values { HaveValues J.setting.kinds result.1.made }
        ensures history { steps_of result.2.items ≡ self.chronicle.history }
        ensures legal { LeavesRootAlone self.chronicle.history }
        ensures fitting { (k : List Kind) → K.fits k kits.old → K.fits k kits.new }
        ensures gives_known { (k : List Kind) → K.gives k kits.new
            → K.gives k kits.old ⊎ J.setting.kinds ≡ k }
        ensures home { (p : PlainPiece) → self.laid ≡ Whole p ∷ []
            → suc (length p.strand.lower) + K.free kits.old ≤ K.total kits.old
            → K.free kits.new ≡ suc (length p.strand.lower) + K.free kits.old }
        ensures counted { kits_laid self.laid + K.free kits.old ≤ K.total kits.old
            → K.free kits.new ≡ kits_laid self.laid + K.free kits.old }
        ensures total { K.total kits.new ≡ K.total kits.old }
    {
        let Book {
            chronicle,
            laid,
            ..
        } = self;
        let (answer, tally) = into_alone(laid).end(scene, alloc, kits);
        (answer, tally, chronicle.into_history())
    }
}
