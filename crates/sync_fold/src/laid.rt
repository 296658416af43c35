//! What the book keeps of a line's strand.
ghost use Rattle.std.specs.Prelude.{◌≡◌, ◌<◌, ◌∷◌, [], length, drop, true, false, IfOk, IfErr};
ghost use Rattle.sync_fold.specs.Books.{AreOne, ArePair, IsPaired, IsMadeOf, IsPairOf, IsWhole, LiesAs, ends_alone, may_be_one, may_touch};
ghost use Rattle.sync_fold.specs.Counts.{HaveOneMore};
ghost use Rattle.sync_fold.specs.declared.laid.Laid.TheVariants.{Whole};

use right_strands::laid::{LaidState, Piece};
use right_strands::pair::Pair;
use right_strands::run::{Run, Scene};
use right_strands::spare::Spares;
use right_strands::strand::RightStrand;
use view_pool::{Kit, View};

/// Nothing is kept while a worker holds the strand. A fold that memory was refused for has left both strands in the left line, as
/// a pair; the right line's has gone into it.
#[derive(Drop)]
pub enum Laid<P, Q> {
    Nothing,
    Whole(P),
    Half(Q, LaidState),
    Paired(LaidState),
}

/// What is kept of the strands of a run.
pub(crate) type LaidOf<J, V> = Laid<Piece<J, V>, Pair<J, V>>;

/// Whether the strand on the right of this piece may be one with it, as far as what is kept of that says.
fn joins_piece<J: Run, V: View>(left: &Piece<J, V>, right: &LaidOf<J, V>) -> bool
    ensures may { result ≡ may_be_one (Whole left.now) right.now }
{
    match right {
        Laid::Nothing => true,
        Laid::Whole(right) => left.may_join(right),
        Laid::Half(..) | Laid::Paired(_) => false,
    }
}

/// Whether two neighbours may be one strand, as far as what is kept of them says.
fn may_be_one<J: Run, V: View>(left: &LaidOf<J, V>, right: &LaidOf<J, V>) -> bool
    ensures may { result ≡ may_be_one left.now right.now }
{
    match left {
        Laid::Nothing => true,
        Laid::Whole(left) => joins_piece(left, right),
        Laid::Half(..) => matches!(right, Laid::Nothing | Laid::Paired(_)),
        Laid::Paired(_) => matches!(right, Laid::Nothing),
    }
}

/// Whether the first two may be one strand, as far as what is kept of them says; true where there are less.
pub(crate) fn may_touch<J: Run, V: View>(laid: &[LaidOf<J, V>]) -> bool
    ensures may { result ≡ may_touch laid.now }
{
    match laid {
        [left, right, ..] => may_be_one(left, right),
        _ => true,
    }
}

/// Whether the first two from that number on may be one strand; true where there are less.
pub(crate) fn may_touch_at<J: Run, V: View>(laid: &[LaidOf<J, V>], k: usize) -> bool
    requires within { k < length laid.now }
    ensures may { result ≡ may_touch (drop k laid.now) }
{
    may_touch(&laid[k..])
}

/// Whether one strand is left, and ends the run.
pub(crate) fn ends_alone<J: Run, V: View>(laid: &[LaidOf<J, V>]) -> bool
    ensures ends { result ≡ ends_alone laid.now }
{
    match laid {
        [Laid::Whole(piece)] => piece.ends_run(),
        _ => false,
    }
}

/// The strand that is laid down.
fn whole_of<P, Q>(laid: Laid<P, Q>) -> P
    requires whole { IsWhole laid }
    ensures whole { laid ≡ Whole result }
{
    match laid {
        Laid::Whole(piece) => piece,
        Laid::Nothing | Laid::Half(..) | Laid::Paired(_) => unreachable!(),
    }
}

/// The strand that is left, and ends the run.
pub(crate) fn into_alone<J: Run, V: View>(mut laid: Vec<LaidOf<J, V>>) -> Piece<J, V>
    requires ended { ends_alone laid.items ≡ true }
    ensures alone { laid.items ≡ Whole result ∷ [] }
{
    match laid.pop() {
        Some(last) => whole_of(last),
        None => unreachable!(),
    }
}

/// A piece and what is kept of the strand on its right as a pair, and as what both were laid down.
fn pair_pieces<J: Run, V: View>(
    left: Piece<J, V>,
    right: LaidOf<J, V>,
) -> (Pair<J, V>, LaidState, LaidState)
    requires pair { ArePair (Whole left) right }
    ensures pair { IsPairOf (Whole left) right result.0 }
    ensures over { LiesAs (Whole left) result.1 }
    ensures waiting { LiesAs right result.2 }
{
    match right {
        Laid::Whole(right) => {
            let over = left.state();
            let waiting = right.state();
            (Pair::new(left, right), over, waiting)
        }
        Laid::Nothing | Laid::Half(..) | Laid::Paired(_) => unreachable!(),
    }
}

/// As what a strand that has gone into a pair was laid down.
fn paired_as<J: Run, V: View>(right: LaidOf<J, V>) -> LaidState
    requires paired { IsPaired right }
    ensures state { LiesAs right result }
{
    match right {
        Laid::Paired(waiting) => waiting,
        Laid::Nothing | Laid::Whole(_) | Laid::Half(..) => unreachable!(),
    }
}

/// What is kept of two neighbours that may become one, as a pair, and as what both were laid down.
fn pair_up<J: Run, V: View>(
    left: LaidOf<J, V>,
    right: LaidOf<J, V>,
) -> (Pair<J, V>, LaidState, LaidState)
    requires pair { ArePair left right }
    ensures pair { IsPairOf left right result.0 }
    ensures over { LiesAs left result.1 }
    ensures waiting { LiesAs right result.2 }
{
    match left {
        Laid::Whole(left) => pair_pieces(left, right),
        Laid::Half(pair, over) => (pair, over, paired_as(right)),
        Laid::Nothing | Laid::Paired(_) => unreachable!(),
    }
}

/// The strand of two neighbours that may become one, and the kit of the right one, which leaves its box to those that are spare; for want of
/// memory both are a pair from then on, laid down as before.
pub(crate) fn join_up<J: Run, V: View>(
    scene: &Scene<'_, J>,
    left: LaidOf<J, V>,
    right: LaidOf<J, V>,
    spares: &mut Spares<V>,
) -> Result<(RightStrand<J, V>, Kit<V>), (Pair<J, V>, LaidState, LaidState)>
    requires pair { ArePair left right }
    ensures joined { IfOk result (λ r. AreOne left right r.0.strand) }
    ensures going { IfOk result (λ r. r.0.failed ≡ false) }
    ensures kit { IfOk result (λ r. r.1 ≡ J.setting.kinds) }
    ensures counted { IfOk result (λ r. HaveOneMore left right r.0.strand) }
    ensures made { IfErr result (λ e. IsMadeOf left right e.0) }
    ensures over { IfErr result (λ e. LiesAs left e.1) }
    ensures waiting { IfErr result (λ e. LiesAs right e.2) }
{
    let (pair, over, waiting) = pair_up(left, right);
    match pair.join(scene, spares) {
        Ok(joined) => Ok(joined),
        Err((_, pair)) => Err((pair, over, waiting)),
    }
}
