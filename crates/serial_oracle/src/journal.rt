//! What a run has done: changes of the reducers, and the memo instances.
ghost use Rattle.std.specs.Prelude.{◌≡◌, ◌++◌, ◌∷◌, [], OnOk, IfOk, map};
ghost use Rattle.serial_oracle.specs.declared.journal.Change.TheVariants.{Reused};
ghost use Rattle.serial_oracle.specs.Keeping.{key_plain};

use std::alloc::{AllocError, Global};

/// A change of the reducers: an update of one by numbers that name its element, or the contribution of a record.
#[derive(Drop)]
pub enum Change {
    Update(usize, Vec<i64>),
    Reused(usize),
}

/// A memo instance: its procedure and arguments.
#[derive(Drop)]
pub struct Key<'p> {
    pub name: &'p str,
    pub args: Vec<i64>,
}

/// The changes of the reducers in their order, the memo instances that were run, and those that a record answered.
#[derive(Drop)]
pub struct Journal<'p> {
    pub changes: Vec<Change>,
    pub executed: Vec<Key<'p>>,
    pub reused: Vec<Key<'p>>,
}

/// A journal of these changes, and of no memo instances.
pub(crate) fn begun<'p>(alloc: Global, changes: Vec<Change>) -> Journal<'p>
    ensures changes { result.changes ≡ changes }
    ensures executed { result.executed.items ≡ [] }
    ensures reused { result.reused.items ≡ [] }
{
    Journal {
        changes,
        executed: Vec::new(alloc),
        reused: Vec::new(alloc),
    }
}

/// Adds a memo instance to others.
fn add_key<'p>(
    alloc: Global,
    keys: &mut Vec<Key<'p>>,
    name: &'p str,
    args: &[i64],
) -> Result<(), AllocError>
    ensures { OnOk result (map key_plain keys.new.items ≡ map key_plain keys.old.items ++ (name.now, args.now) ∷ []) }
{
    let args = args.to_vec(alloc)?;
    if keys.push(Key { name, args }).is_err() {
        return Err(AllocError);
    }
    Ok(())
}

/// Notes that a memo instance is run.
pub(crate) fn note_executed<'p>(
    alloc: Global,
    journal: &mut Journal<'p>,
    name: &'p str,
    args: &[i64],
) -> Result<(), AllocError>
    ensures executed { OnOk result (map key_plain journal.new.executed.items
        ≡ map key_plain journal.old.executed.items ++ (name.now, args.now) ∷ []) }
    ensures changes { journal.new.changes ≡ journal.old.changes }
    ensures reused { journal.new.reused ≡ journal.old.reused }
{
    add_key(alloc, &mut journal.executed, name, args)
}

/// Notes that the record at a place answers a memo instance.
pub(crate) fn note_reused<'p>(
    alloc: Global,
    journal: &mut Journal<'p>,
    place: usize,
    name: &'p str,
    args: &[i64],
) -> Result<(), AllocError>
    ensures reused { OnOk result (map key_plain journal.new.reused.items
        ≡ map key_plain journal.old.reused.items ++ (name.now, args.now) ∷ []) }
    ensures changes { OnOk result (journal.new.changes.items
        ≡ journal.old.changes.items ++ Reused place ∷ []) }
    ensures executed { journal.new.executed ≡ journal.old.executed }
{
    if journal.changes.push(Change::Reused(place)).is_err() {
        return Err(AllocError);
    }
    add_key(alloc, &mut journal.reused, name, args)
}
