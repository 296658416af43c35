//! Places in order, each under a number.
ghost use Rattle.std.specs.Prelude.{◌≡◌, ◌≤◌, ◌<◌, ◌+◌, ◌++◌, ◌∷◌, [], length, slice_index, OnOk, OnErr};
ghost use Rattle.place_chains.specs.Chains.{IsEndOf};

use crate::links::{chain_of, grow, last_of, link};
use std::alloc::{AllocError, Global};
use std::marker::Model;

/// There is room for so many places at most, since one more than a place is kept in 32 bits.
const MOST: usize = 4294967295;

/// Places 0, 1, 2 and so on, each under a number. Those of one number are found from the last to the first.
#[derive(Drop)]
pub struct Places {
    // The number of each place.
    numbers: Vec<u32>,
    // For each place one more than the one before it in its chain, or 0.
    befores: Vec<u32>,
    // For each chain one more than its last place, or 0. There are as many chains as there is room for places.
    ends: Vec<u32>,
}

impl Model for Places {
    ghost use Rattle.std.specs.Prelude.{◌≤◌, length, vec_capacity};
    ghost use Rattle.place_chains.specs.Chains.{PlainPlaces, AreChained};

    ghost Value = { PlainPlaces };

    ghost view = { λ p. record { numbers = p.numbers.items; room = length p.ends.items } };

    ghost invariant = { λ p. AreChained p.numbers.items p.befores.items p.ends.items
        × (length p.numbers.items ≤ length p.ends.items) × (length p.ends.items ≤ 4294967295)
        × (length p.ends.items ≤ vec_capacity p.numbers) × (length p.ends.items ≤ vec_capacity p.befores) };
}

impl Places {
    /// No places; it takes no memory.
    pub fn new(alloc: Global) -> Places
        ensures none { result.numbers ≡ [] }
    {
        Places {
            numbers: Vec::new(alloc),
            befores: Vec::new(alloc),
            ends: Vec::new(alloc),
        }
    }

    /// One more than the last place of that number, or 0 where there is none.
    pub fn newest(&self, number: u32) -> usize
        ensures newest { IsEndOf self.now.numbers (length self.now.numbers) number result }
    {
        if self.ends.is_empty() {
            return 0;
        }
        let chain = chain_of(number, self.ends.len());
        let end = self.ends[chain] as usize;
        last_of(number, end, &self.numbers, &self.befores, &self.ends)
    }

    /// One more than the last place before that one that is under its number, or 0 where there is none.
    pub fn before(&self, place: usize) -> usize
        requires within { place < length self.now.numbers }
        ensures before { IsEndOf self.now.numbers place (slice_index self.now.numbers place) result }
    {
        let end = self.befores[place] as usize;
        last_of(
            self.numbers[place],
            end,
            &self.numbers,
            &self.befores,
            &self.ends,
        )
    }

    /// Makes room for so many more places. Where memory is refused nothing has changed; more places than 32 bits count are refused so
    /// too.
    pub fn reserve(&mut self, more: usize) -> Result<(), AllocError>
        ensures same { self.new.numbers ≡ self.old.numbers }
        ensures room { OnOk result (length self.new.numbers + more ≤ self.new.room) }
        ensures refused { OnErr result (self.new ≡ self.old) }
    {
        let chains = self.ends.len();
        let wanted = self.numbers.len().saturating_add(more);
        if wanted <= chains {
            return Ok(());
        }
        if wanted > MOST {
            return Err(AllocError);
        }
        let room = wanted.max(chains + chains / 2).min(MOST);
        grow(&mut self.numbers, &mut self.befores, &mut self.ends, room)
    }

    /// Puts one more place behind the others. It takes no memory.
    pub fn push(&mut self, number: u32)
        requires room { length self.old.numbers < self.old.room }
        ensures pushed { self.new.numbers ≡ self.old.numbers ++ number ∷ [] }
        ensures room { self.new.room ≡ self.old.room }
    {
        self.numbers.push_reserved(number);
        link(number, &mut self.befores, &mut self.ends);
    }
}
