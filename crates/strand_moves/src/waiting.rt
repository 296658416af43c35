//! Whether a strand that is joined to its left neighbour leaves a name waiting.
ghost use Rattle.std.specs.Prelude.{◌≡◌};
ghost use Rattle.activations.specs.Waiting.{leaves_none};

use small_steps::machine::Machine;
use strand_parts::ends::leaves_none;
use view_pool::View;

/// Whether no name of a strand would wait for a child that ends after the beginning of its left neighbour, which has ended, if the two
/// were joined.
pub fn leaves_none_waiting<V: View>(machine: &Machine<V>, left: &Machine<V>) -> bool
    ensures waiting { result ≡ leaves_none left.now machine.now }
{
    leaves_none(
        left.start,
        &left.path,
        &machine.path,
        &machine.top,
        &machine.below,
    )
}
