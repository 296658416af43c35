//! Places whose numbers all lie in one list.
ghost use Rattle.std.specs.Prelude.{◌≡◌, ◌++◌, ◌∷◌, [], length, OnOk, OnErr};
ghost use Rattle.strand_lines.specs.Lines.{is_unused};
ghost use Rattle.strand_lines.specs.PlaceLists.{cut, total};

use crate::places::is_same;
use std::alloc::{AllocError, Global};
use std::marker::Model;

/// Places in order: the numbers of all of them, one place behind the other, and how many numbers each place has.
#[derive(Drop)]
pub struct PlaceList {
    numbers: Vec<usize>,
    lengths: Vec<usize>,
}

impl Model for PlaceList {
    ghost use Rattle.std.specs.Prelude.{◌≡◌, ℕ, List, length};
    ghost use Rattle.strand_lines.specs.PlaceLists.{cut, total};

    ghost Value = { List (List ℕ) };

    ghost view = { λ p. cut p.lengths.items p.numbers.items };

    ghost invariant = { λ p. total p.lengths.items ≡ length p.numbers.items };
}

/// Whether the place is none of these.
fn is_none_of(lengths: &[usize], numbers: &[usize], place: &[usize]) -> bool
    requires whole { total lengths.now ≡ length numbers.now }
    ensures unused { result ≡ is_unused place.now (cut lengths.now numbers.now) }
{
    let mut at = 0;
    for count in lengths {
        let end = at + *count;
        if is_same(&numbers[at..end], place) {
            return false;
        }
        at = end;
    }
    true
}

impl PlaceList {
    /// No places. It takes no memory.
    pub fn new(alloc: Global) -> PlaceList
        ensures none { result ≡ [] }
    {
        PlaceList {
            numbers: Vec::new(alloc),
            lengths: Vec::new(alloc),
        }
    }

    /// Whether there are none.
    pub fn is_empty(&self) -> bool {
        self.lengths.is_empty()
    }

    /// Puts a copy of a place behind the others. Want of memory is the only error.
    pub fn push(&mut self, place: &[usize]) -> Result<(), AllocError>
        ensures pushed { OnOk result (self.new ≡ self.old ++ place.now ∷ []) }
        ensures same { OnErr result (self.new ≡ self.old) }
    {
        self.lengths.reserve(1)?;
        self.numbers.extend_from_slice(place)?;
        self.lengths.push_reserved(place.len());
        Ok(())
    }

    /// Whether the place is none of these.
    pub fn is_unused(&self, place: &[usize]) -> bool
        ensures unused { result ≡ is_unused place.now self.now }
    {
        is_none_of(&self.lengths, &self.numbers, place)
    }
}
