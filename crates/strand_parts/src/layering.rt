//! The layers with which strands begin, and the one that takes over what a right neighbour has noted.
ghost use Rattle.std.specs.Prelude.{◌≡◌, All, IfOk, IfErr, OnOk, OnErr, false, length};
ghost use Rattle.monoid_laws.specs.Kinds.{IsMonoid};
ghost use Rattle.positions.specs.Code.{may_nest};
ghost use Rattle.positions.specs.Layers.{blank, begun, multiplied};
ghost use Rattle.positions.specs.Tallies.{tallies_joined};
ghost use Rattle.layers.specs.Folds.{BothHaveValues, IsSameButWorths, HasSameProduct};

use crate::beginning::begin;
use crate::nesting::may_nest;
use layers::layer::Layer;
use layers::spares::SpareLists;
use layers::tally::Tally;
use linked_program::checked::Checked;
use std::alloc::{AllocError, Global};
use view_pool::{Kit, View};

/// The layer of a run's first strand, which keeps no readings, with the program's initial values; refused for want of memory alone, and then the kit is
/// handed back.
pub fn first_layer<V: View>(
    alloc: Global,
    program: &Checked,
    kit: Kit<V>,
) -> Result<Layer<V>, (AllocError, Kit<V>)>
    requires kinds { kit ≡ program.now.kinds }
    ensures begun { IfOk result (λ layer. layer ≡ begun kit program.now.initials (blank false kit (length program.now.codes))) }
    ensures kinds { IfOk result (λ layer. layer.kinds ≡ kit) }
    ensures handed_back { IfErr result (λ e. e.1 ≡ kit) }
{
    let mut layer = match Layer::open(alloc, kit, false, program.codes().len()) {
        Ok(layer) => layer,
        Err(refused) => return Err(refused),
    };
    if begin(&mut layer, program).is_err() {
        return Err((AllocError, layer.close()));
    }
    Ok(layer)
}

/// The layer of a stolen continuation's strand, which keeps readings where a memo instance may be around it, without initial values, in spare
/// lists where there are some; refused for want of memory alone, and then the kit is handed back.
pub fn thief_layer<V: View>(
    alloc: Global,
    program: &Checked,
    kit: Kit<V>,
    spares: &mut SpareLists,
) -> Result<Layer<V>, (AllocError, Kit<V>)>
    ensures blank { IfOk result (λ layer. layer ≡ blank (may_nest program.now.codes) kit (length program.now.codes)) }
    ensures handed_back { IfErr result (λ e. e.1 ≡ kit) }
{
    let keeps = may_nest(program.codes());
    let procedures = program.codes().len();
    let (notes, flags, used) = match spares.take(alloc, procedures) {
        Ok(lists) => lists,
        Err(error) => return Err((error, kit)),
    };
    Ok(Layer::in_lists(alloc, kit, keeps, procedures, notes, flags, used))
}

/// Puts the right strand's tally behind this one, and its one layer behind the uppermost of this one's; the lower ones stay. Where memory is
/// refused, some reducers have moved to the left and the others have not, and nothing else has changed.
pub fn join_layers<V: View>(
    tally: &mut Tally,
    right: &mut Tally,
    upper: &mut Layer<V>,
    lower: &mut Vec<Layer<V>>,
    behind: &mut Layer<V>,
) -> Result<(), AllocError>
    requires kinds { upper.old.kinds ≡ behind.old.kinds }
    requires monoids { All IsMonoid upper.old.kinds }
    ensures joined { OnOk result (tally.new ≡ tallies_joined tally.old right.old) }
    ensures multiplied { OnOk result (upper.new ≡ multiplied upper.old behind.old) }
    ensures lower { lower.new.items ≡ lower.old.items }
    ensures right_kinds { behind.new.kinds ≡ behind.old.kinds }
    ensures values { BothHaveValues tally.old.made right.old.made tally.new.made }
    ensures left_unchanged { OnErr result (tally.new ≡ tally.old) }
    ensures right_unchanged { OnErr result (right.new ≡ right.old) }
    ensures left_kept { OnErr result (IsSameButWorths upper.old upper.new) }
    ensures right_kept { OnErr result (IsSameButWorths behind.old behind.new) }
    ensures product { OnErr result (HasSameProduct upper.old behind.old upper.new behind.new) }
{
    let _ = &lower;
    tally.join(right, upper, behind)
}
