//! A text that is written piece by piece, and asked once at its end whether memory was refused on the way.
#![tactic(auto)]

ghost use Rattle.std.specs.Prelude.{◌≡◌, ◌++◌, [], true, string_bytes, IfOk};

use std::alloc::{AllocError, Global};
use std::fmt::Write;

/// A text and whether each piece of it was taken. Behind a piece for which memory is refused none is taken any more.
#[derive(Drop)]
pub struct Page {
    pub words: String,
    pub is_whole: bool,
}

impl Page {
    /// A page with nothing on it.
    pub fn new(alloc: Global) -> Page
        ensures whole { result.is_whole ≡ true }
        ensures empty { string_bytes result.words ≡ [] }
    {
        Page {
            words: String::new(alloc),
            is_whole: true,
        }
    }

    /// Puts words behind what is there.
    pub fn put(&mut self, words: &str)
        ensures put { self.new.is_whole ≡ true → string_bytes self.new.words ≡ string_bytes self.old.words ++ words.now }
        ensures before { self.new.is_whole ≡ true → self.old.is_whole ≡ true }
    {
        if self.is_whole {
            self.is_whole = self.words.push_str(words).is_ok();
        }
    }

    /// Puts a name behind what is there, with words on both sides of it.
    pub fn put_named(&mut self, before: &str, name: &str, behind: &str)
        ensures put { self.new.is_whole ≡ true → string_bytes self.new.words
            ≡ ((string_bytes self.old.words ++ before.now) ++ name.now) ++ behind.now }
        ensures before { self.new.is_whole ≡ true → self.old.is_whole ≡ true }
    {
        self.put(before);
        self.put(name);
        self.put(behind);
    }

    /// Puts a character behind what is there.
    pub fn push(&mut self, character: char)
        ensures before { self.new.is_whole ≡ true → self.old.is_whole ≡ true }
    {
        if self.is_whole {
            self.is_whole = self.words.push(character).is_ok();
        }
    }

    /// Puts a number behind what is there, with words on both sides of it.
    pub fn put_number(&mut self, before: &str, number: i64, behind: &str)
        ensures before { self.new.is_whole ≡ true → self.old.is_whole ≡ true }
    {
        if self.is_whole {
            self.is_whole = write!(self.words, "{before}{number}{behind}").is_ok();
        }
    }

    /// Puts a count behind what is there, with words on both sides of it.
    pub fn put_count(&mut self, before: &str, count: u64, behind: &str)
        ensures before { self.new.is_whole ≡ true → self.old.is_whole ≡ true }
    {
        if self.is_whole {
            self.is_whole = write!(self.words, "{before}{count}{behind}").is_ok();
        }
    }

    /// Whether nothing was put on it.
    pub fn is_empty(&self) -> bool
        ensures { result ≡ true → string_bytes self.now.words ≡ [] }
    {
        self.words.is_empty()
    }

    /// The text, where each piece was taken. Want of memory is the only error.
    pub fn whole(self) -> Result<String, AllocError>
        ensures taken { IfOk result (λ words. self.is_whole ≡ true → words ≡ self.words) }
    {
        if self.is_whole {
            return Ok(self.words);
        }
        Err(AllocError)
    }
}
