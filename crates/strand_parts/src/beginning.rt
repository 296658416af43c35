//! What a run begins with: the updates by the reducers' initial values.
ghost use Rattle.std.specs.Prelude.{◌≡◌, All, OnOk, map, slice_get};
ghost use Rattle.linked_program.specs.Initials.{plain_initial};
ghost use Rattle.positions.specs.Layers.{begun_by, begun};
ghost use Rattle.strand_parts.specs.Begins.{IsInitial};

use layers::layer::Layer;
use linked_program::checked::Checked;
use linked_program::initial::Initial;
use monoid_laws::{InjectError, Kind};
use std::alloc::AllocError;
use view_pool::View;

/// Combines a program's initial values with the reducers' values of a layer. Where memory is refused, some of the first ones
/// are in.
pub(crate) fn begin<V: View>(layer: &mut Layer<V>, program: &Checked) -> Result<(), AllocError>
    requires kinds { layer.old.kinds ≡ program.now.kinds }
    ensures begun { OnOk result (layer.new ≡ begun program.now.kinds program.now.initials layer.old) }
    ensures kinds { layer.new.kinds ≡ layer.old.kinds }
{
    program.beginning();
    combine_all(layer, program.kinds(), program.initials())
}

/// Combines initial values of reducers of these kinds with a layer's values, one after another.
fn combine_all<V: View>(
    layer: &mut Layer<V>,
    kinds: &[Kind],
    initials: &[Initial],
) -> Result<(), AllocError>
    requires kinds { layer.old.kinds ≡ kinds.now }
    requires fit { All (λ i. IsInitial kinds.now (plain_initial i)) initials.now }
    ensures begun { OnOk result (layer.new ≡ begun kinds.now (map plain_initial initials.now) layer.old) }
    ensures kinds { layer.new.kinds ≡ layer.old.kinds }
{
    for initial in initials {
        combine(layer, kinds, initial)?;
    }
    Ok(())
}

/// Combines one of them with its reducer's value; where memory is refused, nothing has changed.
fn combine<V: View>(
    layer: &mut Layer<V>,
    kinds: &[Kind],
    initial: &Initial,
) -> Result<(), AllocError>
    requires kinds { layer.old.kinds ≡ kinds.now }
    requires fits { IsInitial kinds.now (plain_initial initial.now) }
    ensures begun { OnOk result (layer.new ≡ begun_by (slice_get kinds.now initial.now.reducer) (plain_initial initial.now) layer.old) }
    ensures kinds { layer.new.kinds ≡ layer.old.kinds }
{
    let reducer = initial.reducer;
    match kinds.get(reducer) {
        None => Ok(()),
        Some(kind) => match layer.update_fitting(kind, reducer, &initial.numbers) {
            Ok(()) => Ok(()),
            Err(InjectError::NoMemory) => Err(AllocError),
            Err(InjectError::BadElement) => unreachable!(),
        },
    }
}
