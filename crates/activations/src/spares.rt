//! Lists that instances which are over no longer need, for those that begin: most of them then take no memory.
ghost use Rattle.std.specs.Prelude.{◌≡◌, []};

use crate::activation::Activation;
use crate::nest::Nest;
use evaluation::slot::Slot;
use positions::work::{Position, Work};
use std::alloc::Global;

// Instances that are called beside the strand go so many levels deep above the first one.
const LEVELS: usize = 7;

/// Instances that are over, for those that are called next, and lists for others to come: of slots, of places, of instances that wait,
/// and for names. What they held doesn't matter.
#[derive(Drop)]
pub struct Spares {
    pub nest: Nest,
    slots: Vec<Vec<Slot>>,
    places: Vec<Vec<Position>>,
    waiting: Vec<Vec<Activation>>,
    names: Vec<Vec<usize>>,
}

impl Spares {
    /// None yet.
    pub fn new(alloc: Global) -> Spares {
        Spares {
            nest: Nest {
                child: Activation::new(0, Vec::new(alloc), Vec::new(alloc), Work::Over, 0),
                above: Vec::new(alloc),
            },
            slots: Vec::new(alloc),
            places: Vec::new(alloc),
            waiting: Vec::new(alloc),
            names: Vec::new(alloc),
        }
    }

    /// Has further instances ready for those that the next called one calls, some levels deep; fewer where memory is refused.
    #[inline(always)]
    pub fn make_nest(&mut self, alloc: Global) {
        if self.nest.above.len() < LEVELS {
            self.fill_nest(alloc);
        }
    }

    /// The same, where there are fewer.
    #[cold]
    #[inline(never)]
    fn fill_nest(&mut self, alloc: Global) {
        if self.nest.above.reserve(LEVELS).is_err() {
            return;
        }
        for _ in self.nest.above.len()..LEVELS {
            let blank = self.blank(alloc);
            let _ = self.nest.above.push(blank);
        }
    }

    /// An instance in place of the one that is kept, with lists that are kept. Its slots hold what they held: most instances have
    /// as many as those before them, and those are written over at once.
    pub fn blank(&mut self, alloc: Global) -> Activation
        ensures nest { self.new.nest ≡ self.old.nest }
    {
        let slots = match self.slots.pop() {
            Some(slots) => slots,
            None => Vec::new(alloc),
        };
        let places = self.places(alloc);
        Activation::new(0, slots, places, Work::Over, 0)
    }

    /// An empty list of slots.
    pub fn slots(&mut self, alloc: Global) -> Vec<Slot>
        ensures empty { result.items ≡ [] }
        ensures nest { self.new.nest ≡ self.old.nest }
    {
        match self.slots.pop() {
            Some(mut slots) => {
                slots.clear();
                slots
            }
            None => Vec::new(alloc),
        }
    }

    /// An empty list of places.
    pub fn places(&mut self, alloc: Global) -> Vec<Position>
        ensures empty { result.items ≡ [] }
        ensures nest { self.new.nest ≡ self.old.nest }
    {
        match self.places.pop() {
            Some(mut places) => {
                places.clear();
                places
            }
            None => Vec::new(alloc),
        }
    }

    /// An empty list of instances that wait.
    pub fn waiting(&mut self, alloc: Global) -> Vec<Activation>
        ensures empty { result.items ≡ [] }
        ensures nest { self.new.nest ≡ self.old.nest }
    {
        match self.waiting.pop() {
            Some(mut waiting) => {
                waiting.clear();
                waiting
            }
            None => Vec::new(alloc),
        }
    }

    /// An empty list for a name.
    pub fn name(&mut self, alloc: Global) -> Vec<usize>
        ensures empty { result.items ≡ [] }
        ensures nest { self.new.nest ≡ self.old.nest }
    {
        match self.names.pop() {
            Some(mut name) => {
                name.clear();
                name
            }
            None => Vec::new(alloc),
        }
    }

    /// Keeps the lists of an instance that is over, but for those that never held anything: else these would pile up. Where memory is
    /// refused for that they are let go.
    #[inline(always)]
    pub fn keep(&mut self, over: Activation) {
        let (slots, places) = over.into_lists();
        if slots.capacity() > 0 {
            let _ = self.slots.push(slots);
        }
        if places.capacity() > 0 {
            let _ = self.places.push(places);
        }
    }

    /// Makes room for the lists of one more spawned child that returns. Where memory is refused for that they will be let go.
    pub fn make_room(&mut self)
        ensures nest { self.new.nest ≡ self.old.nest }
    {
        let _ = self.slots.reserve(1);
        let _ = self.places.reserve(1);
        let _ = self.waiting.reserve(1);
        let _ = self.names.reserve(1);
    }

    /// Keeps the lists of a spawned child that has returned, with those that its strand had for instances and for a name, where
    /// there is room for them. It takes no memory.
    pub fn keep_child(&mut self, over: Activation, waiting: Vec<Activation>, name: Vec<usize>) {
        let (slots, places) = over.into_lists();
        put_in_room(&mut self.slots, slots);
        put_in_room(&mut self.places, places);
        put_in_room(&mut self.waiting, waiting);
        put_in_room(&mut self.names, name);
    }
}

/// Puts a list behind others, where it has held anything and there is room for it.
fn put_in_room<T: Drop>(lists: &mut Vec<Vec<T>>, list: Vec<T>) {
    if list.capacity() > 0 && lists.len() < lists.capacity() {
        let _ = lists.push(list);
    }
}
