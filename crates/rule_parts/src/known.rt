//! What is known of names at a moment.
ghost use Rattle.std.specs.Prelude.{◌≡◌, ◌&&◌, nat_lt, slice_get};
ghost use Rattle.linked_program.specs.Scope.{precedes, is_bound, is_of};

use linked_program::knowledge::{Knowledge, Moment};

/// Whether the first moment is the earlier one.
pub fn precedes(first: Moment, second: Moment) -> bool
    ensures { result ≡ precedes first second }
{
    first.depth < second.depth || (first.depth == second.depth && first.place < second.place)
}

/// Whether a statement before binds the name.
pub fn is_bound(names: &[Knowledge], name: usize) -> bool
    ensures { result ≡ is_bound (slice_get names.now name) }
{
    match names.get(name) {
        None | Some(Knowledge::Unbound) => false,
        Some(_) => true,
    }
}

/// Whether the name was bound in the block of that depth, and is known.
pub fn is_of(names: &[Knowledge], depth: usize, name: usize) -> bool
    ensures { result ≡ is_of depth (slice_get names.now name) }
{
    match names.get(name) {
        Some(Knowledge::Known { since, .. }) => since.depth == depth,
        _ => false,
    }
}

/// Whether a name waits for a sync that was bound at that moment, where this sync is the last one.
pub fn waits(spawned: bool, synced: Moment, since: Moment) -> bool
    ensures { result ≡ (spawned && precedes synced since) }
{
    spawned && precedes(synced, since)
}

/// Whether a spawn stands before with no sync of the outermost block since, behind a sync at this moment.
pub fn stays_spawned(spawned: bool, now: Moment) -> bool
    ensures { result ≡ (spawned && nat_lt 0 now.depth) }
{
    spawned && now.depth > 0
}
