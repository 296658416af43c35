// Places of records that may be put into blocks.
use std::alloc::Global;
use std::mem;

/// So many places are many.
const MANY: usize = 256;

/// Of so many records that edits have made stale a run is expected to make as many: it has room for fewer soon.
const FEW: u32 = 64;

/// Places, maybe some twice; or all, where there was no room for one more. And how many records edits have made stale, those counted again
/// that several edits did.
#[derive(Drop)]
pub(crate) struct Due {
    places: Vec<u32>,
    all: bool,
    stale: u32,
}

impl Due {
    /// No places.
    pub(crate) fn new(alloc: Global) -> Due {
        Due {
            places: Vec::new(alloc),
            all: false,
            stale: 0,
        }
    }

    /// Makes room for so many places more, as far as memory isn't refused.
    pub(crate) fn make_room(&mut self, places: usize) {
        let _ = self.places.reserve(places);
    }

    /// Notes one more place. It takes no memory.
    pub(crate) fn note(&mut self, place: u32) {
        if self.all {
            return;
        }
        if self.places.len() < self.places.capacity() {
            self.places.push_reserved(place);
        } else {
            self.note_all();
        }
    }

    /// Has all places be noted.
    pub(crate) fn note_all(&mut self) {
        self.all = true;
        self.places.clear();
    }

    /// Whether all places are noted, in place of the listed ones.
    pub(crate) fn are_all(&self) -> bool {
        self.all
    }

    /// Whether many places are listed. It takes no look at them.
    pub(crate) fn has_many(&self) -> bool {
        self.places.len() >= MANY
    }

    /// Notes that one more record is stale. It takes no memory.
    #[inline(always)]
    pub(crate) fn note_stale(&mut self) {
        self.stale = self.stale.saturating_add(1);
    }

    /// How many records are stale, where they are more than a few. It takes no look at them.
    pub(crate) fn many_stale(&self) -> Option<u32> {
        if self.stale < FEW {
            return None;
        }
        Some(self.stale)
    }

    /// Takes the listed places out, and none is noted any more; where memory is refused all are noted, and none is listed.
    pub(crate) fn take(&mut self, alloc: Global) -> Vec<u32> {
        self.all = false;
        self.stale = 0;
        if self.are_many() {
            return mem::replace(&mut self.places, Vec::new(alloc));
        }
        // Few places behind an edit: they are copied, and the room is kept for the next one.
        let mut taken = Vec::new(alloc);
        if taken.extend_from_slice(&self.places).is_err() {
            self.note_all();
        }
        self.places.clear();
        taken
    }

    // Whether a good part of the room is listed.
    fn are_many(&self) -> bool {
        self.places.len() > self.places.capacity() / 4
    }
}
