//! Parts of loops that are too small to be worth a steal.
ghost use Rattle.std.specs.Prelude.{◌≡◌};

use crate::floor::Floor;
use right_strands::run::Run;
use right_strands::strand::RightStrand;
use std::sync::ledger::Ledger;
use stealing_deques::Deques;
use view_pool::View;
use worker_seats::kits::Stocked;
use worker_seats::seat::Seat;

/// How often a loop is halved until a worker does by itself what is left in a half, where records may answer the run: by up to eight workers
/// it has 256 such parts then. To steal half of one, record its share and fold it again takes longer than to do it.
const PARTED: u32 = 8;

/// How often a loop is halved until then, by so many workers: there are 32 parts or more for each of them.
pub(crate) fn parted_by(workers: usize) -> u32 {
    if workers <= 8 { PARTED } else { PARTED + 1 }
}

impl<J: Run + Ledger + Stocked + Send, D: Deques, V: View> Floor<'_, J, D, V> {
    /// Whether spawned children are called, as things stand: the deque holds enough, or the strand does a part of a loop that is too small to
    /// be worth a steal.
    pub(crate) fn calls_children(&self, seat: &mut Seat<J, D>, strand: &RightStrand<J, V>) -> bool
        ensures same { seat.new ≡ seat.old }
    {
        self.holds_enough_or(seat, strand, self.parted)
    }

    /// Whether the child is called that a strand is at the spawn of: so, or where it is half of such a part.
    pub(crate) fn calls_child(&self, seat: &mut Seat<J, D>, strand: &RightStrand<J, V>) -> bool
        ensures same { seat.new ≡ seat.old }
    {
        self.holds_enough_or(seat, strand, self.parted.saturating_add(1))
    }

    /// Whether the deque holds enough, or records may answer the run and the topmost instance's half was halved so often.
    #[inline(always)]
    fn holds_enough_or(&self, seat: &mut Seat<J, D>, strand: &RightStrand<J, V>, often: u32) -> bool
        ensures same { seat.new ≡ seat.old }
    {
        let holds_enough = seat.holds_enough();
        holds_enough || (self.has_records && strand.is_parted(often))
    }
}
