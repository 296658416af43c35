//! Lists that a run's first strand works with.
ghost use Rattle.std.specs.Prelude.{◌≡◌};

use crate::run::Run;
use crate::strand::RightStrand;
use small_steps::lists::WorkLists;
use view_pool::View;

impl<J: Run, V: View> RightStrand<J, V> {
    /// Goes on with these lists, and leaves its own there. It takes no memory.
    pub fn exchange_lists(&mut self, lists: &mut WorkLists)
        ensures same { self.new ≡ self.old }
    {
        self.body.strand.exchange_lists(lists);
    }
}
