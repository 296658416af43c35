//! The two ends of a new deque.
ghost use Rattle.std.specs.Prelude.{◌≡◌, Some, IfOk, length, slice_get};
ghost use Rattle.stealing_deques.specs.Steps.{AreNumbered, unused_owner, unused_thief};

use crate::continuation::Continuation;
use crate::deques::{Deques, NewDeque};
use crate::owner::OwnerEnd;
use crate::rule::Ends;
use crate::thief::ThiefEnd;
use std::alloc::{AllocError, Global};
use std::marker::PhantomData;

/// The two ends of the new deque of that number.
pub fn ends_of<T: Continuation, D: Deques>(
    number: usize,
    deque: NewDeque<T>,
) -> Result<(OwnerEnd<T, D>, ThiefEnd<T, D>), AllocError>
    requires named { slice_get D.deques number ≡ Some deque }
    ensures unused { IfOk result (λ r. (r.0 ≡ unused_owner number) × (r.1 ≡ unused_thief number)) }
{
    let NewDeque { mut worker } = deque;
    let stealer = worker.stealer()?;
    let pass = worker.another::<Ends>();
    let owner = OwnerEnd {
        worker,
        pushes: 0,
        pops: 0,
        number,
        of: PhantomData,
    };
    let thief = ThiefEnd {
        stealer,
        pass,
        steals: 0,
        number,
        of: PhantomData,
    };
    Ok((owner, thief))
}

/// The ends of new deques, which have the numbers from 0 on.
pub fn all_ends<T: Continuation, D: Deques>(
    alloc: Global,
    deques: Vec<NewDeque<T>>,
) -> Result<(Vec<OwnerEnd<T, D>>, Vec<ThiefEnd<T, D>>), AllocError>
    requires named { D.deques ≡ deques.items }
    ensures owners { IfOk result (λ r. length r.0.items ≡ length deques.items) }
    ensures thieves { IfOk result (λ r. length r.1.items ≡ length deques.items) }
    ensures unused_owners { IfOk result (λ r. AreNumbered unused_owner r.0.items) }
    ensures unused_thieves { IfOk result (λ r. AreNumbered unused_thief r.1.items) }
{
    let mut owners = Vec::new(alloc);
    let mut thieves = Vec::new(alloc);
    for deque in deques {
        let (owner, thief) = ends_of(owners.len(), deque)?;
        owners.push(owner)?;
        thieves.push(thief)?;
    }
    Ok((owners, thieves))
}
