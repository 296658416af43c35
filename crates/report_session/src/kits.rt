// Kits of views that the caller makes.
ghost use Rattle.std.specs.Prelude.{◌≡◌, All, IfOk, length};

use monoid_laws::Kind;
use std::alloc::{AllocError, Global};
use view_pool::{Kit, View};

/// So many places stay free behind a kit's views: the next kit's lie no nearer, since two workers that update views in one line of
/// their caches wait for each other.
const APART: usize = 16;

/// So many kits for these kinds, of views that the caller makes. Want of memory is the only error; a view of another kind counts
/// as such.
pub fn kits_for<V: View, M: Fn(Kind) -> Result<V, AllocError>>(
    alloc: Global,
    kinds: &[Kind],
    count: usize,
    make: &M,
) -> Result<Vec<Kit<V>>, AllocError>
    requires { M.IsAlwaysCallable make.now }
    ensures kinds { IfOk result (λ kits. All (λ kit. kit ≡ kinds.now) kits.items) }
    ensures count { IfOk result (λ kits. length kits.items ≡ count) }
{
    let mut kits = Vec::with_capacity(alloc, count)?;
    for _ in 0..count {
        kits.push(kit(alloc, kinds, make)?)?;
    }
    Ok(kits)
}

// A kit for these kinds.
fn kit<V: View, M: Fn(Kind) -> Result<V, AllocError>>(
    alloc: Global,
    kinds: &[Kind],
    make: &M,
) -> Result<Kit<V>, AllocError>
    requires { M.IsAlwaysCallable make.now }
    ensures { IfOk result (λ kit. kit ≡ kinds.now) }
{
    let mut views = Vec::with_capacity(alloc, kinds.len())?;
    for kind in kinds {
        views.push(view(*kind, make)?)?;
    }
    Ok(Kit::reset(apart(alloc, views)?))
}

// These views in a list that was made behind them, with places that stay free.
fn apart<V: View>(alloc: Global, mut views: Vec<V>) -> Result<Vec<V>, AllocError>
    ensures same { IfOk result (λ list. list.items ≡ views.items) }
{
    let mut list = Vec::with_capacity(alloc, views.len().saturating_add(APART))?;
    list.append(&mut views)?;
    Ok(list)
}

// A view of that kind.
fn view<V: View, M: Fn(Kind) -> Result<V, AllocError>>(
    kind: Kind,
    make: &M,
) -> Result<V, AllocError>
    requires { M.IsAlwaysCallable make.now }
    ensures { IfOk result (λ view. V.kind_of view ≡ kind) }
{
    let view = make(kind)?;
    if view.kind() == kind {
        return Ok(view);
    }
    Err(AllocError)
}
