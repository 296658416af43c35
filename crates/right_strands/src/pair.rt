//! Neighbours that become one strand.
ghost use Rattle.std.specs.Prelude.{◌≡◌, [], true, false, IfOk, IfErr};
ghost use Rattle.positions.specs.Moves.{joined};
ghost use Rattle.right_strands.specs.Pairs.{IsStill, is_over, is_waiting, frees, may_pair};

use crate::laid::{LaidState, Piece};
use crate::run::{Run, Scene};
use crate::spare::Spares;
use crate::strand::RightStrand;
use positions::start::Start;
use std::alloc::AllocError;
use std::marker::Model;
use view_pool::{Kit, View};

/// Two neighbours that may become one, and where the left one begins. Where a joining was refused for memory some reducers have
/// moved from the right one to the left.
#[derive(Drop)]
pub struct Pair<J: Run, V: View = Box<dyn View>> {
    left: RightStrand<J, V>,
    right: RightStrand<J, V>,
    start: Start,
}

impl<J: Run, V: View> Model for Pair<J, V> {
    ghost use Rattle.right_strands.specs.Pairs.{PlainPair, IsPairFrom};

    ghost Value = { PlainPair };

    ghost view = { λ p. record { left = p.left.strand; right = p.right.strand } };

    ghost invariant = { λ p. IsPairFrom J.setting p.start p.left.strand p.right.strand };
}

impl<J: Run, V: View> Piece<J, V> {
    /// Whether the strand may be the left one of two.
    pub fn is_over(&self) -> bool
        ensures over { result ≡ is_over self.now.state }
    {
        matches!(self.state, LaidState::Ended | LaidState::Faulted)
    }

    /// Whether the strand may be the right one of two.
    pub fn is_waiting(&self) -> bool
        ensures waits { result ≡ is_waiting self.now.state }
    {
        matches!(self.state, LaidState::Stalled | LaidState::Faulted)
    }

    /// Whether the strand and that one to its right may be joined by their names. One that has ended has to name the child behind
    /// which the right one begins, and to leave no name of it waiting.
    pub fn may_join(&self, right: &Piece<J, V>) -> bool
        ensures may { result ≡ may_pair self.now right.now }
    {
        match self.state {
            LaidState::Ended => right.is_behind(self.name()) && right.is_freed_by(self),
            _ => true,
        }
    }

    /// Whether no name of a strand at its entry's sync is left waiting, if it is joined to the left one, which has ended.
    fn is_freed_by(&self, left: &Piece<J, V>) -> bool
        ensures freed { result ≡ frees self.now.state left.now.strand self.now.strand }
    {
        match self.state {
            LaidState::Stalled => self.strand.leaves_none_waiting(&left.strand),
            _ => true,
        }
    }
}

impl<J: Run, V: View> Pair<J, V> {
    /// Two pieces that may become one strand.
    pub fn new(left: Piece<J, V>, right: Piece<J, V>) -> Pair<J, V>
        requires over { is_over left.state ≡ true }
        requires waits { is_waiting right.state ≡ true }
        requires may { may_pair left right ≡ true }
        ensures pair { result ≡ record { left = left.strand; right = right.strand } }
    {
        let start = left.start();
        Pair {
            left: left.into_right(),
            right: right.into_right(),
            start,
        }
    }

    /// The right strand of both, and the kit of the right one, which leaves its box to those that are spare. Where memory is refused the pair is
    /// handed back, of the same two strands, but for reducers' values that have moved from the right one to the left.
    pub fn join(
        self,
        scene: &Scene<'_, J>,
        spares: &mut Spares<V>,
    ) -> Result<(RightStrand<J, V>, Kit<V>), (AllocError, Pair<J, V>)>
        ensures joined { IfOk result (λ r. r.0
            ≡ record { strand = joined self.left self.right; failed = false }) }
        ensures kit { IfOk result (λ r. r.1 ≡ J.setting.kinds) }
        ensures one_layer { IfOk result (λ r. self.right.lower ≡ []) }
        ensures still { IfErr result (λ e. IsStill self e.1) }
    {
        let Pair {
            mut left,
            mut right,
            start,
        } = self;
        match left.join(scene, start, &mut right) {
            Ok(()) => {
                let (kit, spare) = left.let_go(right);
                spares.keep(spare);
                Ok((left, kit))
            }
            Err(error) => Err((error, Pair { left, right, start })),
        }
    }
}
