//! The arguments of an instance in few bytes.
ghost use Rattle.std.specs.Prelude.{◌≡◌, IfOk};
ghost use Rattle.instance_records.specs.Parts.{arguments_in};

use std::alloc::{AllocError, Global};
use std::slice;

/// Arguments in order. One or two lie by themselves, more of them in memory of their own.
#[derive(Drop)]
pub enum Arguments {
    Nothing,
    One(i64),
    Two([i64; 2]),
    Several(Box<Vec<i64>>),
}

impl Arguments {
    /// Copies of these arguments. Want of memory is the only error.
    #[inline(always)]
    pub fn from_slice(alloc: Global, items: &[i64]) -> Result<Arguments, AllocError>
        ensures same { IfOk result (λ list. arguments_in list ≡ items.now) }
    {
        match items.len() {
            0 => Ok(Arguments::Nothing),
            1 => Ok(Arguments::One(items[0])),
            2 => Ok(Arguments::Two([items[0], items[1]])),
            _ => Arguments::several(alloc, items),
        }
    }

    // Copies of these in memory of their own.
    #[inline(never)]
    fn several(alloc: Global, items: &[i64]) -> Result<Arguments, AllocError>
        ensures same { IfOk result (λ list. arguments_in list ≡ items.now) }
    {
        let items = Vec::from_slice(alloc, items)?;
        Ok(Arguments::Several(Box::new(alloc, items)?))
    }

    /// Lends the arguments.
    #[inline(always)]
    pub fn as_slice(&self) -> &[i64]
        ensures items { result.now ≡ arguments_in self.now }
    {
        match self {
            Arguments::Nothing => &[],
            Arguments::One(item) => slice::from_ref(item),
            Arguments::Two(pair) => pair,
            Arguments::Several(items) => items.as_slice(),
        }
    }
}
