// Kits of both sorts of views.
ghost use Rattle.std.specs.Prelude.{◌≡◌, All, IfOk, length};

use command_line::options::Views;
use monoid_laws::Kind;
use report_session::kits::kits_for;
use std::alloc::{AllocError, Global};
use view_pool::{Kit, View};

/// How the views of one kit keep lists and amounts: in pieces, or whole.
#[derive(Clone, Copy)]
pub enum Sort {
    Plain,
    Flat,
}

// The sort of the kit behind so many others.
fn sort_of(views: Views, before: usize) -> Sort {
    match views {
        Views::Plain => Sort::Plain,
        Views::Flat => Sort::Flat,
        Views::Mixed => {
            if before % 2 == 0 {
                Sort::Plain
            } else {
                Sort::Flat
            }
        }
    }
}

/// So many kits for these kinds, of views that the caller makes of the sorts that are asked for. Want of memory is the only error;
/// a view of another kind counts as such.
pub fn kits_of<V: View, M: Fn(Sort, Kind) -> Result<V, AllocError>>(
    alloc: Global,
    kinds: &[Kind],
    count: usize,
    views: Views,
    make: &M,
) -> Result<Vec<Kit<V>>, AllocError>
    requires { M.IsAlwaysCallable make.now }
    ensures kinds { IfOk result (λ kits. All (λ kit. kit ≡ kinds.now) kits.items) }
    ensures count { IfOk result (λ kits. length kits.items ≡ count) }
{
    let mut kits = Vec::with_capacity(alloc, count)?;
    for before in 0..count {
        let sort = sort_of(views, before);
        let mut kit = kits_for(alloc, kinds, 1, &|kind: Kind| make(sort, kind))?;
        kits.append(&mut kit)?;
    }
    Ok(kits)
}
