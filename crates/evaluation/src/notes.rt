// The notes of what was read, in order.
ghost use Rattle.std.specs.Prelude.{◌≡◌, ◌++◌, ◌∷◌, [], IfErr, IfOk, OnErr, OnOk, false, length, map, nat_eq, take, true};
ghost use Rattle.evaluation.specs.Short.{note_of};

use crate::note::Note;
use crate::reading::Reading;
use crate::stop::Stop;
use std::alloc::{AllocError, Global};
use std::marker::Model;

/// Notes, each in 16 bytes.
#[derive(Drop)]
pub struct Notes {
    readings: Vec<Reading>,
}

impl Model for Notes {
    ghost use Rattle.std.specs.Prelude.{List, map};
    ghost use Rattle.evaluation.specs.declared.note.Note.{Note};
    ghost use Rattle.evaluation.specs.Short.{note_of};

    ghost Value = { List Note };

    ghost view = { λ n. map note_of n.readings.items };
}

impl Notes {
    /// No notes. It takes no memory.
    pub fn new(alloc: Global) -> Notes
        ensures none { result ≡ [] }
    {
        Notes {
            readings: Vec::new(alloc),
        }
    }

    /// How many there are.
    pub fn len(&self) -> usize
        ensures count { result ≡ length self.now }
    {
        self.readings.len()
    }

    /// Whether there are none.
    pub fn is_empty(&self) -> bool
        ensures none { result ≡ nat_eq (length self.now) 0 }
    {
        self.len() == 0
    }

    /// Adds a note; an error is want of memory, or a number that is too large for its bytes, which no program's is.
    pub fn add(&mut self, note: &Note) -> Result<(), Stop>
        ensures added { OnOk result (self.new ≡ self.old ++ note.now ∷ []) }
        ensures cause { IfErr result (λ stop. stop ≡ Stop.NoMemory) }
        ensures same { OnErr result (self.new ≡ self.old) }
    {
        match Reading::new(note) {
            Some(reading) => self.push(reading),
            None => Err(Stop::NoMemory),
        }
    }

    /// Adds two notes, or where memory is refused or a number is too large for its bytes none: whether they were added.
    #[inline(always)]
    pub fn add_both(&mut self, first: &Note, second: &Note) -> bool
        ensures added { result ≡ true → self.new ≡ self.old ++ first.now ∷ second.now ∷ [] }
        ensures same { result ≡ false → self.new ≡ self.old }
    {
        let Some(first) = Reading::new(first) else {
            return false;
        };
        let Some(second) = Reading::new(second) else {
            return false;
        };
        self.push_both(first, second)
    }

    // Adds two notes in their few bytes, or none.
    #[inline(always)]
    fn push_both(&mut self, first: Reading, second: Reading) -> bool
        ensures added { result ≡ true → self.new ≡ self.old ++ note_of first ∷ note_of second ∷ [] }
        ensures same { result ≡ false → self.new ≡ self.old }
    {
        if self.readings.reserve(2).is_err() {
            return false;
        }
        self.readings.push_reserved(first);
        self.readings.push_reserved(second);
        true
    }

    // Adds a note in its few bytes.
    fn push(&mut self, reading: Reading) -> Result<(), Stop>
        ensures added { OnOk result (self.new ≡ self.old ++ note_of reading ∷ []) }
        ensures cause { IfErr result (λ stop. stop ≡ Stop.NoMemory) }
        ensures same { OnErr result (self.new ≡ self.old) }
    {
        match self.readings.push(reading) {
            Ok(()) => Ok(()),
            Err(_) => Err(Stop::NoMemory),
        }
    }

    /// Forgets all but so many first ones.
    pub fn truncate(&mut self, count: usize)
        ensures first { self.new ≡ take count self.old }
    {
        self.readings.truncate(count);
    }

    /// Forgets all.
    pub fn clear(&mut self)
        ensures none { self.new ≡ [] }
    {
        self.readings.clear();
    }

    /// Adds copies of others; where memory is refused none.
    pub fn add_all(&mut self, others: &Notes) -> Result<(), AllocError>
        ensures added { OnOk result (self.new ≡ self.old ++ others.now) }
        ensures same { OnErr result (self.new ≡ self.old) }
    {
        self.readings.extend_from_slice(&others.readings)
    }

    /// Lends them in their few bytes.
    pub fn readings(&self) -> &[Reading]
        ensures readings { map note_of result.now ≡ self.now }
    {
        &self.readings
    }
}
