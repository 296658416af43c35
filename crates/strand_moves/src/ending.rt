//! A strand that is over: its upper layers are let go, and then the strand.
ghost use Rattle.std.specs.Prelude.{◌≡◌, ◌+◌, ◌≤◌, ◌<◌, ◌⊎◌, suc, length, List, All};
ghost use Rattle.monoid_laws.specs.declared.Kind.{Kind};
ghost use Rattle.positions.specs.Moves.{lowest_alone};
ghost use Rattle.strand_moves.specs.Ends.{left_with};

use layers::closing::{close_all, send_home};
pub use layers::tally::Tally;
use small_steps::machine::Machine;
use strand_parts::ends::left_by;
use view_pool::{Kit, KitSource, View};

/// Keeps its lowest layer alone, and sends the other kits home.
pub fn close_upper<V: View, K: KitSource<Kit<V>>>(machine: &mut Machine<V>, kits: &mut K)
    requires kinds { All (λ l. l.kinds ≡ machine.old.layer.kinds) machine.old.lower }
    requires fits { K.fits machine.old.layer.kinds kits.old }
    ensures alone { machine.new ≡ lowest_alone machine.old }
    ensures kinds { machine.new.layer.kinds ≡ machine.old.layer.kinds }
    ensures fitting { (k : List Kind) → K.fits k kits.old → K.fits k kits.new }
    ensures gives_known { (k : List Kind) → K.gives k kits.new → K.gives k kits.old ⊎ machine.old.layer.kinds ≡ k }
    ensures home { length machine.old.lower + K.free kits.old ≤ K.total kits.old → K.free kits.new ≡ length machine.old.lower + K.free kits.old }
    ensures total { K.total kits.new ≡ K.total kits.old }
{
    close_all(&mut machine.layer, &mut machine.lower, kits);
}

/// Sends the one kit home, and gives the tally: the records stay in the lists in which they were made.
pub fn let_go<V: View, K: KitSource<Kit<V>>>(machine: Machine<V>, kits: &mut K) -> Tally
    requires fits { K.fits machine.layer.kinds kits.old }
    ensures records { result.made ≡ machine.tally.made }
    ensures fitting { (k : List Kind) → K.fits k kits.old → K.fits k kits.new }
    ensures gives_known { (k : List Kind) → K.gives k kits.new → K.gives k kits.old ⊎ machine.layer.kinds ≡ k }
    ensures home { K.free kits.old < K.total kits.old → K.free kits.new ≡ suc (K.free kits.old) }
    ensures total { K.total kits.new ≡ K.total kits.old }
{
    let Machine {
        start: _,
        layer,
        lower: _,
        path: _,
        place: _,
        top: _,
        below: _,
        phase: _,
        arguments: _,
        tally,
        numbers: _,
        spares: _,
        lists: _,
    } = machine;
    send_home(kits, layer.close());
    tally
}

/// The value with which `main` has left, where it has.
pub fn left_with<V: View>(machine: &Machine<V>) -> Option<i64>
    ensures left { result ≡ left_with machine.now }
{
    left_by(machine.phase, &machine.below, &machine.path)
}
