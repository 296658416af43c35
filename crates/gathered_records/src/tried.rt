// Which places were tried.
use std::alloc::{AllocError, Global};

/// How many places a word has.
const WORD: usize = 64;

/// How many words a page has.
const WORDS: usize = 64;

/// How many places a page has.
const PAGE: usize = 4096;

/// Where so few places are asked, none is noted: to look whether a place has a block by now takes less than to note all places of
/// a block.
const FEW: usize = 64;

/// Where less than one of so many places is asked, those of a whole block aren't noted either.
const SPARSE: usize = 16;

/// A flag for each place. A page has memory once a place of it was tried, since a rerun tries few among many.
#[derive(Drop)]
pub(crate) struct Tried {
    pages: Vec<Vec<u64>>,
    notes: bool,
    notes_blocks: bool,
    keeps_reads: bool,
}

impl Tried {
    /// None of so many places was tried, of which so many will be asked, for blocks that keep what their records have read or don't.
    pub(crate) fn new(
        alloc: Global,
        places: usize,
        asked: usize,
        keeps_reads: bool,
    ) -> Result<Tried, AllocError> {
        let notes = asked > FEW;
        let mut pages = Vec::new(alloc);
        if notes {
            for _ in 0..places / PAGE + 1 {
                pages.push(Vec::new(alloc))?;
            }
        }
        Ok(Tried {
            pages,
            notes,
            notes_blocks: notes && asked > places / SPARSE,
            keeps_reads,
        })
    }

    /// Whether blocks keep what their records have read.
    pub(crate) fn keeps_reads(&self) -> bool {
        self.keeps_reads
    }

    /// Whether many places are asked.
    pub(crate) fn are_many(&self) -> bool {
        self.notes
    }

    /// Whether that place was tried.
    pub(crate) fn has(&self, place: usize) -> bool {
        match self.pages.get(place / PAGE) {
            Some(page) => match page.get(place % PAGE / WORD) {
                Some(word) => *word & bit(place) != 0,
                None => false,
            },
            None => self.notes,
        }
    }

    /// Notes that the places of a block were tried, where many of them may be asked. They mostly lie in a row.
    pub(crate) fn put_all(&mut self, places: &[u32]) {
        if !self.notes_blocks {
            return;
        }
        match places.first() {
            Some(first) if are_in_row(places, *first) => {
                self.put_row(*first as usize, places.len())
            }
            _ => self.put_each(places),
        }
    }

    // Notes so many places from that one on, a word at a time.
    fn put_row(&mut self, first: usize, count: usize) {
        let last = first.saturating_add(count.saturating_sub(1));
        for word in first / WORD..last / WORD + 1 {
            self.put_bits(word, bits_between(word, first, last));
        }
    }

    // Notes places one by one.
    fn put_each(&mut self, places: &[u32]) {
        for place in places {
            self.put(*place as usize);
        }
    }

    /// Notes that a place was tried; where memory is refused, it may be tried again.
    pub(crate) fn put(&mut self, place: usize) {
        self.put_bits(place / WORD, bit(place));
    }

    // Puts up these flags of that word, counted over all pages.
    fn put_bits(&mut self, word: usize, bits: u64) {
        let page = word / WORDS;
        if page < self.pages.len() {
            put_up(&mut self.pages[page], word % WORDS, bits);
        }
    }
}

// Puts up these flags of that word of a page.
fn put_up(page: &mut Vec<u64>, word: usize, bits: u64) {
    if page.is_empty() && page.resize(WORDS, 0).is_err() {
        return;
    }
    if word < page.len() {
        page[word] |= bits;
    }
}

// The bit of a place in its word.
fn bit(place: usize) -> u64 {
    1 << (place % WORD)
}

// The bits of the places in that word that lie between two.
fn bits_between(word: usize, first: usize, last: usize) -> u64 {
    let mut bits = u64::MAX;
    if word == first / WORD {
        bits &= u64::MAX << (first % WORD);
    }
    if word == last / WORD {
        bits &= u64::MAX >> (WORD - 1 - last % WORD);
    }
    bits
}

// Whether these places are that one and those behind it, one after another, as far as the last one tells.
fn are_in_row(places: &[u32], first: u32) -> bool {
    match places.last() {
        Some(last) => *last as usize
            == (first as usize).saturating_add(places.len().saturating_sub(1)),
        None => false,
    }
}
