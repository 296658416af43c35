//! The first worker, while it is alone.
ghost use Rattle.std.specs.Prelude.{◌≡◌, ◌+◌, ◌<◌, true};
ghost use Rattle.stealing_deques.specs.Order.{IsBoundTo};
ghost use Rattle.sync_fold.specs.Counts.{kits_of};
ghost use Rattle.worker_seats.specs.Balances.{most};
ghost use Rattle.worker_seats.specs.Spots.{spot_of};
ghost use Rattle.threaded_driver.specs.Finds.{is_left, IsAt};

use crate::desk::Desk;
use crate::floor::Floor;
use crate::found::Found;
use crate::gate::Gate;
use right_strands::run::Run;
use right_strands::strand::RightStrand;
use std::sync::Wait;
use std::sync::atomic::Ordering;
use std::sync::ledger::Ledger;
use stealing_deques::Deques;
use view_pool::{Kit, View};
use worker_seats::held::Held;
use worker_seats::kits::{KitsOf, Stocked};
use worker_seats::seat::Seat;
use worker_seats::supply::Supply;

/// How many goes are one time that the first worker goes on alone, and how often it may before the others are started. To start them
/// takes as long as some hundred small steps, and a run that records answer is over after fewer. Behind the first time it looks whether
/// many records are stale: then the others are started at once.
const GOES: usize = 16;

const TIMES: usize = 8;

/// How many goes it has where no record may answer the run: so many continuations may lie in its deque then, and the others find something
/// to steal as soon as they come.
const FIRST: usize = 4;

impl<J: Run + Ledger + Stocked + Send, D: Deques, V: View> Floor<'_, J, D, V> {
    /// The first worker comes, and goes on for a while before the others are started, unless somebody watches who may hold it for them, or
    /// edits have made many records stale. What this takes of the stack is free again for what comes behind it.
    #[inline(never)]
    pub(crate) fn begin<R: Wait, G: Gate>(
        &self,
        rt: &R,
        seat: &mut Seat<J, D>,
        gate: &G,
    ) -> (usize, Found<J, V>)
        ensures left { is_left result.1 ≡ true → 0 < seat.new.left }
        ensures here { IsAt seat.new.here result.1 }
    {
        let (number, found) = self.come(rt, seat);
        if gate.watches_updates() || self.scene.has_many_due() {
            return (number, found);
        }
        match found {
            Found::Own(held) => (number, self.go_alone(rt, number, seat, held, gate)),
            other => (number, other),
        }
    }

    /// Goes on with the first strand for a while, as far as to the run's end where it comes so far.
    #[tactic(auto, using(crate::proofs::Binding::unbound_at))]
    fn go_alone<R: Wait, G: Gate>(
        &self,
        rt: &R,
        number: usize,
        seat: &mut Seat<J, D>,
        held: Held<J, V>,
        gate: &G,
    ) -> Found<J, V>
        requires bound { IsBoundTo seat.old.here (spot_of held.strand) }
        ensures left { is_left result ≡ true → 0 < seat.new.left }
        ensures here { IsAt seat.new.here result }
    {
        let (mut strand, share, ready) = held.into_parts();
        seat.lend_lists(&mut strand);
        let mut supply = Supply::new(rt, &self.desk, share, strand.kits(), ready);
        self.is_alone.store(true, Ordering::Relaxed);
        let goes_on = self.go_on(rt, number, seat, &mut strand, &mut supply, gate);
        self.is_alone.store(false, Ordering::Relaxed);
        seat.take_lists(&mut strand, false);
        if goes_on {
            let (share, _, kept) = supply.into_parts();
            return Found::Own(Held::with_kit(strand, share, kept));
        }
        self.lay(rt, number, seat, strand, supply, gate)
    }

    /// As many times as it may go on alone, or one where no record may answer the run or many are stale. Whether the strand goes on.
    fn go_on<R: Wait, G: Gate>(
        &self,
        rt: &R,
        number: usize,
        seat: &mut Seat<J, D>,
        strand: &mut RightStrand<J, V>,
        supply: &mut Supply<'_, Desk<J, D, V>, Kit<V>, KitsOf<J>, R>,
        gate: &G,
    ) -> bool
        requires bound { IsBoundTo seat.old.here (spot_of strand.old.strand) }
        requires kits { kits_of strand.old.strand + supply.old.free ≡ most }
        ensures bound { result ≡ true → IsBoundTo seat.new.here (spot_of strand.new.strand) }
        ensures kits { kits_of strand.new.strand + supply.new.free ≡ most }
    {
        if !self.go_far(rt, number, seat, strand, supply, gate) {
            return false;
        }
        if !self.has_records || self.scene.seems_stale() {
            return true;
        }
        for _ in 1..TIMES {
            if !self.go_far(rt, number, seat, strand, supply, gate) {
                return false;
            }
        }
        true
    }

    /// So many goes. Whether the strand goes on.
    fn go_far<R: Wait, G: Gate>(
        &self,
        rt: &R,
        number: usize,
        seat: &mut Seat<J, D>,
        strand: &mut RightStrand<J, V>,
        supply: &mut Supply<'_, Desk<J, D, V>, Kit<V>, KitsOf<J>, R>,
        gate: &G,
    ) -> bool
        requires bound { IsBoundTo seat.old.here (spot_of strand.old.strand) }
        requires kits { kits_of strand.old.strand + supply.old.free ≡ most }
        ensures bound { result ≡ true → IsBoundTo seat.new.here (spot_of strand.new.strand) }
        ensures kits { kits_of strand.new.strand + supply.new.free ≡ most }
    {
        let goes = if self.has_records { GOES } else { FIRST };
        for _ in 0..goes {
            if !self.step(rt, number, seat, strand, supply, gate) {
                return false;
            }
        }
        true
    }
}
