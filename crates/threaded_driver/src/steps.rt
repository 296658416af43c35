//! How a worker goes on with a strand: small steps, many in one go, until the strand pauses.
ghost use Rattle.std.specs.Prelude.{◌≡◌, ◌+◌, true, false, IfOk, OnOk};
ghost use Rattle.stealing_deques.specs.Order.{IsBoundTo};
ghost use Rattle.sync_fold.specs.Counts.{kits_of};
ghost use Rattle.worker_seats.specs.Balances.{most};
ghost use Rattle.worker_seats.specs.Spots.{spot_of, HasReturned};

use crate::desk::Desk;
use crate::floor::Floor;
use crate::gate::{Gate, Point};
use crate::spawned::Spawned;
use positions::phase::Paused;
use right_strands::run::Run;
use right_strands::strand::RightStrand;
use std::alloc::AllocError;
use std::sync::Wait;
use std::sync::atomic::Ordering;
use std::sync::ledger::Ledger;
use stealing_deques::Deques;
use view_pool::{Kit, View};
use worker_seats::kits::{KitsOf, Stocked};
use worker_seats::seat::Seat;
use worker_seats::supply::Supply;

/// How many times a worker goes ahead before it looks whether the run has given up.
const STEPS: usize = 64;

/// How many times the first worker goes ahead before it looks so, while it is alone.
const FEW: usize = 8;

impl<J: Run + Ledger + Stocked + Send, D: Deques, V: View> Floor<'_, J, D, V> {
    /// Small steps, and what there is to do where the strand pauses. Whether the strand goes on. It stands in its callers' loops, which
    /// then find the strand's parts once and not at each pause.
    #[inline(always)]
    pub(crate) fn step<R: Wait, G: Gate>(
        &self,
        rt: &R,
        number: usize,
        seat: &mut Seat<J, D>,
        strand: &mut RightStrand<J, V>,
        supply: &mut Supply<'_, Desk<J, D, V>, Kit<V>, KitsOf<J>, R>,
        gate: &G,
    ) -> bool
        requires bound { IsBoundTo seat.old.here (spot_of strand.old.strand) }
        requires kits { kits_of strand.old.strand + supply.old.free ≡ most }
        ensures bound { result ≡ true → IsBoundTo seat.new.here (spot_of strand.new.strand) }
        ensures kits { kits_of strand.new.strand + supply.new.free ≡ most }
    {
        match self.take_steps(number, seat, strand, supply, gate) {
            Ok(Paused::Working) => !self.has_given_up(),
            Ok(Paused::AtSpawn) => self.spawn(number, seat, strand, gate),
            Ok(Paused::Returned) => self.resume(rt, number, seat, strand, gate),
            _ => false,
        }
    }

    /// Small steps until the strand pauses, or as many as are done in one go, which leave its lowest instance as it is. Its worker pushes
    /// nothing meanwhile, so whether the deque holds enough is asked once. The go is over behind iterations that were recorded at once: they
    /// may have lasted longer than thieves took to empty the deque. Want of memory is the only error.
    #[inline(always)]
    fn take_steps<R: Wait, G: Gate>(
        &self,
        number: usize,
        seat: &mut Seat<J, D>,
        strand: &mut RightStrand<J, V>,
        supply: &mut Supply<'_, Desk<J, D, V>, Kit<V>, KitsOf<J>, R>,
        gate: &G,
    ) -> Result<Paused, AllocError>
        requires kits { kits_of strand.old.strand + supply.old.free ≡ most }
        ensures kits { kits_of strand.new.strand + supply.new.free ≡ most }
        ensures spot { OnOk result (spot_of strand.new.strand ≡ spot_of strand.old.strand) }
        ensures returned { IfOk result
            (λ paused. paused ≡ Paused.Returned → HasReturned strand.new.strand) }
        ensures seat { seat.new ≡ seat.old }
    {
        supply.begin();
        let is_watched = gate.watches_updates();
        let is_alone = self.is_alone.load(Ordering::Relaxed);
        let steps = if is_alone { FEW } else { STEPS };
        let mut spawned = Spawned::new(self.calls_children(seat, strand));
        for _ in 0..steps {
            self.steps_ahead(number, is_watched, is_alone, &mut spawned, strand, gate)?;
            if self.record_ahead(is_watched || is_alone, &mut spawned, strand, supply)? {
                return Ok(Paused::Working);
            }
            match strand.advance(self.alloc, &self.scene, supply)? {
                Paused::Working => {}
                paused => return Ok(paused),
            }
        }
        Ok(Paused::Working)
    }

    /// Small steps that need no kit, where others work too: they may take long. Spawned children are called where it is said so.
    #[inline(always)]
    #[tactic(auto, using(crate::proofs::Staying::stays_way))]
    fn run_ahead(&self, is_alone: bool, spawned: &mut Spawned, strand: &mut RightStrand<J, V>)
        ensures spot { spot_of strand.new.strand ≡ spot_of strand.old.strand }
        ensures lower { strand.new.strand.lower ≡ strand.old.strand.lower }
    {
        if !is_alone {
            strand.run_ahead(self.alloc, &self.scene, spawned);
        }
    }

    /// Small steps that need no kit, and iterations that records answer; halves of few iterations are left to those that record them in one go
    /// behind these steps. Where updates are watched none, and the gate is told of an update that is next. Want of memory is the only error.
    #[inline(always)]
    #[tactic(auto, using(crate::proofs::Staying::stays_way))]
    fn steps_ahead<G: Gate>(
        &self,
        number: usize,
        is_watched: bool,
        is_alone: bool,
        spawned: &mut Spawned,
        strand: &mut RightStrand<J, V>,
        gate: &G,
    ) -> Result<(), AllocError>
        ensures spot { OnOk result (spot_of strand.new.strand ≡ spot_of strand.old.strand) }
        ensures lower { strand.new.strand.lower ≡ strand.old.strand.lower }
    {
        if is_watched {
            if strand.at_update(&self.scene) {
                gate.at(number, Point::Update);
            }
            return Ok(());
        }
        self.run_ahead(is_alone, spawned, strand);
        strand.answer_ahead(self.alloc, &self.scene, spawned.calls(), !is_alone)?;
        Ok(())
    }

    /// Iterations that are recorded in one go, unless steps are done one by one; those of a half where spawned children are called. Whether there
    /// were any. Want of memory is the only error.
    #[inline(always)]
    #[tactic(auto, using(crate::proofs::Staying::stays_on))]
    fn record_ahead<R: Wait>(
        &self,
        one_by_one: bool,
        spawned: &mut Spawned,
        strand: &mut RightStrand<J, V>,
        supply: &mut Supply<'_, Desk<J, D, V>, Kit<V>, KitsOf<J>, R>,
    ) -> Result<bool, AllocError>
        requires kits { kits_of strand.old.strand + supply.old.free ≡ most }
        ensures kits { kits_of strand.new.strand + supply.new.free ≡ most }
        ensures spot { OnOk result (spot_of strand.new.strand ≡ spot_of strand.old.strand) }
    {
        if one_by_one {
            return Ok(false);
        }
        strand.record_ahead(self.alloc, &self.scene, spawned, supply)
    }
}
