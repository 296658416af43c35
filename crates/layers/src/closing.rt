//! Layers that are let go, whose kits go home, and the values that they have.
ghost use Rattle.std.specs.Prelude.{◌≡◌, ◌+◌, ◌≤◌, ◌<◌, ◌⊎◌, suc, length, List, All, IfOk, map, reverse, []};
ghost use Rattle.monoid_laws.specs.declared.Kind.{Kind};
ghost use Rattle.monoid_laws.specs.Kinds.{meaning};
ghost use Rattle.positions.specs.Layers.{lowest as lowest_of};

use crate::layer::Layer;
use hypermaps::Hypermap;
use monoid_laws::Val;
use std::alloc::{AllocError, Global};
use std::mem;
use view_pool::{Kit, KitSource, View};

/// Sends a kit home.
#[inline(always)]
pub fn send_home<V: View, K: KitSource<Kit<V>>>(kits: &mut K, kit: Kit<V>)
    requires fits { K.fits kit kits.old }
    ensures fitting { (k : List Kind) → K.fits k kits.old → K.fits k kits.new }
    ensures gives_known { (k : List Kind) → K.gives k kits.new → K.gives k kits.old ⊎ kit ≡ k }
    ensures home { K.free kits.old < K.total kits.old → K.free kits.new ≡ suc (K.free kits.old) }
    ensures total { K.total kits.new ≡ K.total kits.old }
{
    let _ = kits.give(kit);
}

/// Lets all layers go but the lowest, and sends their kits home.
pub fn close_all<V: View, K: KitSource<Kit<V>>>(
    layer: &mut Layer<V>,
    lower: &mut Vec<Layer<V>>,
    kits: &mut K,
)
    requires kinds { All (λ l. l.kinds ≡ layer.old.kinds) lower.old.items }
    requires fits { K.fits layer.old.kinds kits.old }
    ensures lowest { layer.new ≡ lowest_of layer.old (reverse lower.old.items) }
    ensures none { lower.new.items ≡ [] }
    ensures same_kinds { layer.new.kinds ≡ layer.old.kinds }
    ensures fitting { (k : List Kind) → K.fits k kits.old → K.fits k kits.new }
    ensures gives_known { (k : List Kind) → K.gives k kits.new → K.gives k kits.old ⊎ layer.old.kinds ≡ k }
    ensures home { length lower.old.items + K.free kits.old ≤ K.total kits.old → K.free kits.new ≡ length lower.old.items + K.free kits.old }
    ensures total { K.total kits.new ≡ K.total kits.old }
{
    while let Some(next) = lower.pop() {
        let upper = mem::replace(layer, next);
        send_home(kits, upper.close());
    }
}

/// Copies of the reducers' values.
fn values_of<V: View>(alloc: Global, hypermap: &Hypermap<V>) -> Result<Vec<Val>, AllocError>
    ensures values { IfOk result (λ values. map meaning values.items ≡ hypermap.now.worths) }
{
    let count = hypermap.len();
    let mut values = Vec::new(alloc);
    for i in 0..count {
        values.push(hypermap.value(i)?)?;
    }
    Ok(values)
}

impl<V: View> Layer<V> {
    /// Copies of the reducers' values.
    pub fn values_held(&self, alloc: Global) -> Result<Vec<Val>, AllocError>
        ensures values { IfOk result (λ values. map meaning values.items ≡ self.now.worths) }
    {
        values_of(alloc, &self.hypermap)
    }
}
