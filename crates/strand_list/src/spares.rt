//! Lists that places no longer need, for the places of other lines.
ghost use Rattle.std.specs.Prelude.{◌≡◌, [], IfOk};

use numbered_runs::step::Place;
use std::alloc::{AllocError, Global};

/// An empty list for a place.
fn spare(spares: &mut Vec<Place>, alloc: Global) -> Place
    ensures empty { result.items ≡ [] }
{
    match spares.pop() {
        Some(mut spare) => {
            spare.clear();
            spare
        }
        None => Vec::new(alloc),
    }
}

/// A copy of a place, in a spare list where there is one. Want of memory is the only error.
pub(crate) fn copy_of(
    spares: &mut Vec<Place>,
    alloc: Global,
    place: &[usize],
) -> Result<Place, AllocError>
    ensures copy { IfOk result (λ p. p.items ≡ place.now) }
{
    let mut copy = spare(spares, alloc);
    copy.extend_from_slice(place)?;
    Ok(copy)
}

/// Keeps a list. Where memory is refused for that it is let go.
pub(crate) fn keep(spares: &mut Vec<Place>, over: Option<Place>) {
    if let Some(over) = over {
        let _ = spares.push(over);
    }
}
