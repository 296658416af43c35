//! The procedures that an instance entered, in few bytes.
ghost use Rattle.std.specs.Prelude.{◌≡◌, ◌++◌, ◌∷◌, [], true, IfOk, IfSome, OnOk};
ghost use Rattle.instance_records.specs.Parts.{entries_in};

use std::alloc::{AllocError, Global};
use std::slice;
use std::sync::Arc;

/// Numbers of procedures in order, each with its revision number. One of them lies by itself, two are shared by those who have the same,
/// more lie in memory of their own.
#[derive(Drop)]
pub enum Entries {
    Nothing,
    One((usize, u64)),
    Two(Arc<[(usize, u64); 2]>),
    Several(Box<Vec<(usize, u64)>>),
}

impl Entries {
    /// Copies of these entries. Want of memory is the only error.
    pub fn from_slice(alloc: Global, entries: &[(usize, u64)]) -> Result<Entries, AllocError>
        ensures same { IfOk result (λ list. entries_in list ≡ entries.now) }
    {
        match entries.len() {
            0 => Ok(Entries::Nothing),
            1 => Ok(Entries::One(entries[0])),
            2 => Ok(Entries::Two(Arc::new(alloc, [entries[0], entries[1]])?)),
            _ => {
                let copies = Vec::from_slice(alloc, entries)?;
                Ok(Entries::Several(Box::new(alloc, copies)?))
            }
        }
    }

    /// Lends the entries.
    #[inline(always)]
    pub fn as_slice(&self) -> &[(usize, u64)]
        ensures items { result.now ≡ entries_in self.now }
    {
        match self {
            Entries::Nothing => &[],
            Entries::One(entry) => slice::from_ref(entry),
            Entries::Two(pair) => &**pair,
            Entries::Several(entries) => entries.as_slice(),
        }
    }

    /// A second owner of these entries, where they are those two; none where they aren't. It takes no memory.
    #[inline(always)]
    pub fn share_two(&self, pair: &[(usize, u64); 2]) -> Option<Entries>
        ensures same { IfSome result (λ list. entries_in list ≡ pair.now) }
    {
        match self {
            Entries::Two(held) => {
                if !are_same(&**held, pair) {
                    return None;
                }
                match Arc::try_clone(held) {
                    Ok(more) => Some(Entries::Two(more)),
                    Err(_) => None,
                }
            }
            _ => None,
        }
    }

    /// Puts an entry behind the others. Want of memory is the only error.
    pub fn push(&mut self, alloc: Global, entry: (usize, u64)) -> Result<(), AllocError>
        ensures pushed { OnOk result (entries_in self.new ≡ entries_in self.old ++ entry ∷ []) }
    {
        match self {
            Entries::Nothing => {
                *self = Entries::One(entry);
                Ok(())
            }
            Entries::One(first) => {
                *self = Entries::Two(Arc::new(alloc, [*first, entry])?);
                Ok(())
            }
            Entries::Two(pair) => {
                let mut entries = Vec::from_slice(alloc, &**pair)?;
                entries.push(entry)?;
                *self = Entries::Several(Box::new(alloc, entries)?);
                Ok(())
            }
            Entries::Several(entries) => {
                entries.push(entry)?;
                Ok(())
            }
        }
    }

    /// Gives spare room back. It takes no memory.
    pub fn shrink_to_fit(&mut self)
        ensures same { entries_in self.new ≡ entries_in self.old }
    {
        match self {
            Entries::Several(entries) => entries.shrink_to_fit(),
            _ => {}
        }
    }
}

/// Whether these are the same two entries.
#[inline(always)]
fn are_same(left: &[(usize, u64); 2], right: &[(usize, u64); 2]) -> bool
    ensures same { result ≡ true → left.now ≡ right.now }
{
    if !is_same(&left[0], &right[0]) {
        return false;
    }
    is_same(&left[1], &right[1])
}

/// Whether these are the same entry.
#[inline(always)]
fn is_same(left: &(usize, u64), right: &(usize, u64)) -> bool
    ensures same { result ≡ true → left.now ≡ right.now }
{
    left.0 == right.0 && left.1 == right.1
}
