//! Strands that are laid down.
ghost use Rattle.std.specs.Prelude.{◌≡◌, ◌⊎◌, ◌+◌, ◌≤◌, true, false, suc, List, [], length, IfOk, IfErr};
ghost use Rattle.monoid_laws.specs.declared.Kind.{Kind};
ghost use Rattle.meaning.specs.SmallStep.{same_name};
ghost use Rattle.record_theory.specs.Named.{HaveValues};
ghost use Rattle.positions.specs.Advance.{pause_of};
ghost use Rattle.positions.specs.Moves.{lowest_alone};
ghost use Rattle.positions.specs.Simulation.{place_of};
ghost use Rattle.right_strands.specs.Rightness.{IsRightStrand};
ghost use Rattle.right_strands.specs.Laid.{IsPausedAs, laid_as, AnswersElision, IsGiven, HasRecorded, ends_run};

use crate::run::{Run, Scene};
use crate::strand::RightStrand;
use frames::strand::Strand;
use positions::answer::RunAnswer;
use positions::phase::Paused;
use positions::start::Start;
use std::alloc::{AllocError, Global};
use std::marker::Model;
pub use strand_list::laid_state::LaidState;
pub use strand_moves::ending::Tally;
use view_pool::{Kit, KitSource, View};

/// A strand that is right for the run J, and at the point as which it is laid down; one with a fault has one layer. It lies in the box
/// in which its worker had it.
#[derive(Drop)]
pub struct Piece<J: Run, V: View = Box<dyn View>> {
    pub(crate) strand: RightStrand<J, V>,
    pub(crate) state: LaidState,
}

impl<J: Run, V: View> Model for Piece<J, V> {
    ghost use Rattle.std.specs.Prelude.{◌≡◌, false};
    ghost use Rattle.right_strands.specs.Laid.{PlainPiece, IsPausedAs};

    ghost Value = { PlainPiece };

    ghost view = { λ p. record { strand = p.strand.strand; state = p.state } };

    ghost invariant = { λ p. (p.strand.failed ≡ false)
        × IsPausedAs J.setting.codes p.state p.strand.strand };
}

impl<J: Run, V: View> Piece<J, V> {
    /// A strand that its holder has nothing to do with; another is handed back, and one that has failed. The kits of the upper
    /// layers of one with a fault go home.
    pub fn lay<K: KitSource<Kit<V>>>(
        scene: &Scene<'_, J>,
        strand: RightStrand<J, V>,
        kits: &mut K,
    ) -> Result<Piece<J, V>, RightStrand<J, V>>
        requires fits { K.fits J.setting.kinds kits.old }
        ensures laid { IfOk result (λ p. p.strand ≡ laid_as p.state strand.strand) }
        ensures back { IfErr result (λ s. s ≡ strand) }
        ensures fitting { (k : List Kind) → K.fits k kits.old → K.fits k kits.new }
        ensures gives_known { (k : List Kind) → K.gives k kits.new
            → K.gives k kits.old ⊎ J.setting.kinds ≡ k }
        ensures home { length strand.strand.lower + K.free kits.old ≤ K.total kits.old
            → IfOk result (λ p. K.free kits.new + length p.strand.lower
            ≡ length strand.strand.lower + K.free kits.old) }
        ensures away { IfErr result (λ s. K.free kits.new ≡ K.free kits.old) }
        ensures total { K.total kits.new ≡ K.total kits.old }
    {
        if strand.has_failed() {
            return Err(strand);
        }
        match strand.pause(scene) {
            Paused::Returned => Ok(Piece::at(strand, LaidState::Ended)),
            Paused::AtSync => Ok(Piece::at(strand, LaidState::Stalled)),
            Paused::Finished => Ok(Piece::at(strand, LaidState::Finished)),
            Paused::Faulted => Ok(Piece::faulted(strand, kits)),
            _ => Err(strand),
        }
    }

    /// The strand laid down at that point.
    fn at(strand: RightStrand<J, V>, state: LaidState) -> Piece<J, V>
        requires going { strand.failed ≡ false }
        requires paused_so { IsPausedAs J.setting.codes state strand.strand }
        ensures laid { result ≡ record { strand = strand.strand; state = state } }
    {
        Piece { strand, state }
    }

    /// The strand with a fault, laid down with its lowest layer alone.
    fn faulted<K: KitSource<Kit<V>>>(mut strand: RightStrand<J, V>, kits: &mut K) -> Piece<J, V>
        requires going { strand.failed ≡ false }
        requires faulted { pause_of J.setting.codes strand.strand ≡ Paused.Faulted }
        requires fits { K.fits J.setting.kinds kits.old }
        ensures laid { result
            ≡ record { strand = lowest_alone strand.strand; state = LaidState.Faulted } }
        ensures fitting { (k : List Kind) → K.fits k kits.old → K.fits k kits.new }
        ensures gives_known { (k : List Kind) → K.gives k kits.new
            → K.gives k kits.old ⊎ J.setting.kinds ≡ k }
        ensures home { length strand.strand.lower + K.free kits.old ≤ K.total kits.old
            → K.free kits.new ≡ length strand.strand.lower + K.free kits.old }
        ensures total { K.total kits.new ≡ K.total kits.old }
    {
        strand.close_upper(kits);
        Piece {
            strand,
            state: LaidState::Faulted,
        }
    }

    /// As what it is laid down.
    pub fn state(&self) -> LaidState
        ensures state { result ≡ self.now.state }
    {
        self.state
    }

    /// What the type keeps.
    pub fn upheld(&self)
        ensures right { IsRightStrand J.setting self.now.strand }
        ensures paused_so { IsPausedAs J.setting.codes self.now.state self.now.strand }
    {
        self.strand.upheld();
    }

    /// Where the strand begins.
    pub fn start(&self) -> Start
        ensures start { result ≡ self.now.strand.start }
    {
        self.strand.start()
    }

    /// The whole name of the topmost instance.
    pub fn name(&self) -> &[usize]
        ensures name { result.now ≡ self.now.strand.path }
    {
        self.strand.name()
    }

    /// Whether the strand begins behind the child of that name; the first one does behind the empty name.
    pub fn is_behind(&self, name: &[usize]) -> bool
        ensures behind { result
            ≡ same_name (place_of self.now.strand.start self.now.strand.path) name.now }
    {
        self.strand.is_behind(name)
    }

    /// The name of the child behind which the strand begins; that of the first strand is empty. Want of memory is the only
    /// error.
    pub fn begins_behind(&self, alloc: Global) -> Result<Vec<usize>, AllocError>
        ensures place { IfOk result (λ place. place.items
            ≡ place_of self.now.strand.start self.now.strand.path) }
    {
        self.strand.begins_behind(alloc)
    }

    /// Whether the run has come to its end with this strand, where no other is left.
    pub fn ends_run(&self) -> bool
        ensures ends { result ≡ ends_run self.now }
    {
        match self.state {
            LaidState::Finished => true,
            LaidState::Faulted => self.strand.is_behind(&[]),
            LaidState::Ended | LaidState::Stalled => false,
        }
    }

    /// The answer of the piece that ends the run, which is the elision's, and its tally with its new records; every kit goes home where
    /// there is room for them all.
    pub fn end<K: KitSource<Kit<V>>>(
        self,
        scene: &Scene<'_, J>,
        alloc: Global,
        kits: &mut K,
    ) -> (RunAnswer, Tally)
        requires ends { ends_run self ≡ true }
        requires fits { K.fits J.setting.kinds kits.old }
        ensures elision { AnswersElision J.setting result.0 }
        ensures given { IsGiven result.0 }
        ensures recorded { HasRecorded J.setting result.0 result.1.made }
        ensures values { HaveValues J.setting.kinds result.1.made }
        ensures records { result.1.made ≡ self.strand.tally.made }
        ensures fitting { (k : List Kind) → K.fits k kits.old → K.fits k kits.new }
        ensures gives_known { (k : List Kind) → K.gives k kits.new
            → K.gives k kits.old ⊎ J.setting.kinds ≡ k }
        ensures home { suc (length self.strand.lower) + K.free kits.old ≤ K.total kits.old
            → K.free kits.new ≡ suc (length self.strand.lower) + K.free kits.old }
        ensures total { K.total kits.new ≡ K.total kits.old }
    {
        // The setting's records are sound, and the strand has a layer for each open instance: so what it ends with is the elision's.
        scene.upheld();
        let strand = self.into_strand();
        strand.layered();
        strand.end_with_tally(alloc, kits)
    }

    /// The strand by itself.
    pub fn into_strand(self) -> Strand<V>
        ensures strand { result ≡ self.strand }
        ensures right { IsRightStrand J.setting self.strand }
        ensures paused_so { IsPausedAs J.setting.codes self.state self.strand }
        ensures kinds { self.strand.layer.kinds ≡ J.setting.kinds }
    {
        let Piece { strand, state: _ } = self;
        strand.into_strand()
    }

    /// The strand as its worker had it.
    pub(crate) fn into_right(self) -> RightStrand<J, V>
        ensures strand { result.strand ≡ self.strand }
        ensures right { IsRightStrand J.setting self.strand }
        ensures paused_so { IsPausedAs J.setting.codes self.state self.strand }
        ensures kinds { self.strand.layer.kinds ≡ J.setting.kinds }
    {
        let Piece { strand, state: _ } = self;
        strand.upheld();
        strand
    }
}
