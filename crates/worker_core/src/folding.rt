// Two neighbours become one strand.
ghost use Rattle.std.specs.Prelude.{◌≡◌, ◌⊎◌, true, ◌+◌, ◌<◌, All, IfOk, IfErr, OnErr, OnOk, Ok, [], length};
ghost use Rattle.monoid_laws.specs.Kinds.{IsMonoid};
ghost use Rattle.stepped_runs.specs.Pieces.{may_join_at, may_fold, folded};
ghost use Rattle.stepped_runs.specs.Runs.{is_idle, if_idle, folded_at};
ghost use Rattle.worker_core.specs.Moves.{RefusedAs};
ghost use Rattle.positions.specs.Moves.{FoldsViews};
ghost use Rattle.stepped_runs.specs.Halves.{IsHalfFolded};
ghost use Rattle.worker_core.specs.Folds.{KeepsProducts, LeavesFolded, MayFoldAt, IsFoldedAt};
ghost use Rattle.stepped_runs.specs.Layered.{HasOneLayer};
ghost use Rattle.worker_core.specs.Strands.{neighbour_at, run_of, kits_in, AreFit};

use crate::piece::Piece;
use crate::strands::{Strands, behind, held_at};
use linked_program::checked::Checked;
use numbered_runs::refusal::Refusal;
use numbered_runs::step::{BookStep, State};
use positions::phase::Phase;
use std::alloc::Global;
use strand_list::kits::give_back;
use strand_list::lines::{is_done, is_waiting};
use view_pool::{Kit, View};

/// The number of the left neighbour of the strand that begins behind the child of that name.
fn neighbour_at<V: View>(pieces: &[Piece<V>], place: &[usize]) -> Option<usize>
    ensures neighbour { result ≡ neighbour_at place.now pieces.now }
{
    match pieces.split_first() {
        None => None,
        Some((_, later)) => behind(later, place),
    }
}

impl<V: View> Piece<V> {
    /// Whether the strand has a fault, or has ended as the child behind which the right one begins.
    #[tactic(auto, using(crate::proofs::Names::same_swap))]
    fn may_join(&self, right: &Piece<V>) -> bool
        ensures joins { result ≡ may_join_at self.now.strand.phase self.now right.now }
    {
        match self.strand.phase() {
            Phase::Broken(_) => true,
            Phase::Leaving(_) => right.strand.is_behind(self.strand.name()),
            _ => false,
        }
    }

    /// Whether the two may become one strand.
    fn may_fold(&self, right: &Piece<V>) -> bool
        ensures may { result ≡ may_fold self.now right.now }
    {
        is_done(self.state) && is_waiting(right.state) && self.may_join(right)
    }

    /// Puts its right neighbour behind the strand, which the worker then holds, and gives the kit of the right one. Where
    /// memory is refused the right one is handed back: some reducers have moved to the left and the others have not, and
    /// nothing else has changed.
    fn fold(&mut self, right: Piece<V>, worker: usize) -> Result<Kit<V>, Piece<V>>
        requires may { may_fold self.old right ≡ true }
        requires one_layer { right.strand.lower ≡ [] }
        requires kinds { self.old.strand.layer.kinds ≡ right.strand.layer.kinds }
        requires monoids { All IsMonoid self.old.strand.layer.kinds }
        ensures folded { OnOk result (self.new ≡ folded worker self.old right) }
        ensures kit { IfOk result (λ kit. kit ≡ right.strand.layer.kinds) }
        ensures half { IfErr result (IsHalfFolded self.old right self.new) }
        ensures views { IfErr result (λ back. FoldsViews self.old.strand.phase right.strand.phase ⊎ ((self.new ≡ self.old) × (back ≡ right))) }
    {
        let Piece {
            strand,
            deque,
            state,
        } = right;
        match self.strand.join(strand) {
            Ok(kit) => {
                self.deque.clear();
                self.state = State::Held(worker);
                Ok(kit)
            }
            Err((_, strand)) => Err(Piece {
                strand,
                deque,
                state,
            }),
        }
    }
}

impl<V: View> Strands<V> {
    /// Makes one strand, which the worker then holds, of the strand that begins behind the child of that name and its left
    /// neighbour, or refuses that. Where memory is refused, both stay with the same product, and nothing else has changed;
    /// another refusal changes nothing.
    pub(crate) fn fold(
        &mut self,
        alloc: Global,
        program: &Checked,
        worker: usize,
        place: &[usize],
    ) -> Result<(), Refusal>
        requires fit { AreFit program.now.kinds self.old }
        requires layered { All HasOneLayer self.old.pieces }
        requires monoids { All IsMonoid program.now.kinds }
        ensures taken { OnOk result (if_idle (is_idle worker self.old.pieces)
            (folded_at worker place.now (length self.old.kits) [] self.old.pieces self.old.history) ≡ Ok (run_of self.new)) }
        ensures refused { IfErr result (RefusedAs true
            (if_idle (is_idle worker self.old.pieces)
            (folded_at worker place.now (length self.old.kits) [] self.old.pieces self.old.history))) }
        ensures kept { IfErr result (λ e. LeavesFolded e self.old self.new) }
        ensures fit { AreFit program.now.kinds self.new }
        ensures total { self.new.total ≡ self.old.total }
        ensures kits { kits_in self.new ≡ kits_in self.old }
    {
        if held_at(&self.pieces, worker).is_some() {
            return Err(Refusal::Busy);
        }
        match neighbour_at(&self.pieces, place) {
            None => Err(Refusal::NotThere),
            Some(number) => {
                if !self.pieces[number].may_fold(&self.pieces[number + 1]) {
                    return Err(Refusal::NotThere);
                }
                self.fold_at(alloc, program, worker, number)
            }
        }
    }

    /// Makes one strand, which the worker then holds, of two neighbours that may become one.
    fn fold_at(
        &mut self,
        alloc: Global,
        program: &Checked,
        worker: usize,
        number: usize,
    ) -> Result<(), Refusal>
        requires number { number + 1 < length self.old.pieces }
        requires may { MayFoldAt number self.old.pieces }
        requires fit { AreFit program.now.kinds self.old }
        requires layered { All HasOneLayer self.old.pieces }
        requires monoids { All IsMonoid program.now.kinds }
        ensures folded { OnOk result (IsFoldedAt worker number (run_of self.old) (run_of self.new)) }
        ensures cause { IfErr result (λ e. e ≡ Refusal.NoMemory) }
        ensures kept { OnErr result (KeepsProducts self.old self.new) }
        ensures fit { AreFit program.now.kinds self.new }
        ensures total { self.new.total ≡ self.old.total }
        ensures kits { kits_in self.new ≡ kits_in self.old }
    {
        let Ok(left) = self.pieces[number].place(alloc) else {
            return Err(Refusal::NoMemory);
        };
        let Ok(right) = self.pieces[number + 1].place(alloc) else {
            return Err(Refusal::NoMemory);
        };
        if self.history.reserve(1).is_err() {
            return Err(Refusal::NoMemory);
        }
        program.kinds();
        let taken = self.pieces.remove(number + 1);
        match self.pieces[number].fold(taken, worker) {
            Ok(kit) => {
                self.history
                    .push_reserved(BookStep::Fold(left, right, worker));
                give_back(kit, &mut self.pool);
                Ok(())
            }
            Err(taken) => {
                let _ = self.pieces.insert(number + 1, taken);
                Err(Refusal::NoMemory)
            }
        }
    }
}
