// Whether a strand that is joined to its left neighbour leaves a name waiting.
ghost use Rattle.std.specs.Prelude.{◌≡◌, suc, length};
ghost use Rattle.activations.specs.Waiting.{leaves_none};

use crate::strand::Strand;
use strand_moves::waiting::leaves_none_waiting;
use view_pool::View;

impl<V: View> Strand<V> {
    /// How many kits it has: one for each of its layers.
    pub fn kits(&self) -> usize
        ensures kits { result ≡ suc (length self.now.lower) }
    {
        self.machine.kits()
    }

    /// Whether no name of this strand would wait for a child that ends after the beginning of its left neighbour, which has ended,
    /// if the two were joined.
    pub fn leaves_none_waiting(&self, left: &Strand<V>) -> bool
        ensures waiting { result ≡ leaves_none left.now self.now }
    {
        leaves_none_waiting(&self.machine, &left.machine)
    }
}
