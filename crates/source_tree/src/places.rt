//! The places of names. A number is compared at once where a text takes a call, so names that a number can hold are found
//! by it. No two names have one number, so none can be chosen to make others dear.

ghost use Rattle.std.specs.Prelude.{◌≡◌, List, ℕ, None, OnErr, OnOk};
ghost use Rattle.source_tree.specs.Lowering.{with_index};
ghost use Rattle.source_tree.specs.Packing.{packed, place_in};

use std::alloc::{AllocError, Global};
use std::collections::BTreeMap;

/// The places of names, of short ones by their numbers.
#[derive(Drop)]
pub struct Places {
    short: BTreeMap<u64, usize>,
    long: BTreeMap<String, usize>,
}

/// The number of a name of at most seven bytes. It is counted down, since a map's keys are gone through from the least one:
/// of numbered names those with the greatest numbers, which came last and are asked for soonest, are found first.
fn packed(name: &str) -> Option<u64>
    ensures { result ≡ packed name.now }
{
    let mut number: u64 = 1;
    for byte in name.as_bytes() {
        if number >= 72057594037927936 {
            return None;
        }
        number = number * 256 + *byte as u64;
    }
    Some(u64::MAX - number)
}

impl Places {
    /// No places.
    pub(crate) fn new(alloc: Global) -> Self
        ensures { (x : List ℕ) → place_in result x ≡ None }
    {
        Places {
            short: BTreeMap::new(alloc),
            long: BTreeMap::new(alloc),
        }
    }

    /// The place of a name.
    pub(crate) fn place_of(&self, name: &str) -> Option<usize>
        ensures { result ≡ place_in self.now name.now }
    {
        match packed(name) {
            Some(number) => self.short.get(&number).copied(),
            None => self.long.get(name).copied(),
        }
    }

    /// Keeps the place of a name that has none, unless memory runs out.
    pub(crate) fn keep_new(
        &mut self,
        alloc: Global,
        name: &str,
        place: usize,
    ) -> Result<(), AllocError>
        requires { place_in self.old name.now ≡ None }
        ensures indexed { OnOk result ((x : List ℕ) → place_in self.new x ≡ with_index (λ y. place_in self.old y) name.now place x) }
        ensures same { OnErr result ((x : List ℕ) → place_in self.new x ≡ place_in self.old x) }
    {
        if let Some(number) = packed(name) {
            self.short.insert(number, place)?;
            return Ok(());
        }
        let key = String::from_str(alloc, name)?;
        self.long.insert(key, place)?;
        Ok(())
    }

    /// Keeps the place of a name, unless it has one or memory runs out.
    pub(crate) fn keep(&mut self, alloc: Global, name: &str, place: usize) -> Result<(), AllocError>
        ensures indexed { OnOk result ((x : List ℕ) → place_in self.new x ≡ with_index (λ y. place_in self.old y) name.now place x) }
        ensures same { OnErr result ((x : List ℕ) → place_in self.new x ≡ place_in self.old x) }
    {
        match self.place_of(name) {
            Some(_) => Ok(()),
            None => self.keep_new(alloc, name, place),
        }
    }
}
