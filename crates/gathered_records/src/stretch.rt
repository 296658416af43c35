// Which numbers in a row have records, and how a loop over all of them is halved.
use crate::gathering::find_row;
use crate::row::Row;
use rerun_records::records::Records;
use std::alloc::{AllocError, Global};

/// So many stretches are kept in mind.
const MOST: usize = 8;

/// A step is doubled or halved so often at most.
const STEPS: usize = 62;

/// Numbers in a row, from the first to the last.
#[derive(Clone, Copy)]
pub(crate) struct Bounds {
    pub(crate) first: i64,
    pub(crate) last: i64,
}

/// Numbers of a row of instances that all have records, as far as they were asked.
#[derive(Drop)]
struct Stretch {
    procedure: usize,
    counted: usize,
    arguments: Vec<i64>,
    bounds: Bounds,
}

/// The stretches that were found last: to find one takes as long as to look up dozens of records.
#[derive(Drop)]
pub(crate) struct Stretches {
    known: Vec<Stretch>,
}

impl Bounds {
    /// One number.
    pub(crate) fn one(number: i64) -> Bounds {
        Bounds {
            first: number,
            last: number,
        }
    }

    /// How many numbers these are.
    pub(crate) fn count(self) -> u64 {
        self.last
            .wrapping_sub(self.first)
            .cast_unsigned()
            .saturating_add(1)
    }

    /// How many of these there are from that number on.
    pub(crate) fn count_from(self, number: i64) -> usize {
        let rest = Bounds {
            first: number,
            last: self.last,
        };
        rest.count() as usize
    }

    /// Whether that number is one of these.
    pub(crate) fn has(self, number: i64) -> bool {
        self.first <= number && number <= self.last
    }

    /// The numbers that are among others too.
    pub(crate) fn within(self, other: Bounds) -> Bounds {
        Bounds {
            first: self.first.max(other.first),
            last: self.last.min(other.last),
        }
    }

    /// That part of these numbers which has this one and no more than so many, where they are halved again and again as a loop's
    /// iterations are: so a loop over all of them asks for such parts as a whole.
    pub(crate) fn part(self, number: i64, most: u64) -> Bounds {
        let mut part = self;
        for _ in 0..STEPS {
            if part.count() <= most {
                return part;
            }
            part = part.half(number);
        }
        part
    }

    // The half that has this number: the first half is the shorter one.
    fn half(self, number: i64) -> Bounds {
        let second = self.first.wrapping_add((self.count() / 2).cast_signed());
        if number < second {
            Bounds {
                first: self.first,
                last: second.wrapping_sub(1),
            }
        } else {
            Bounds {
                first: second,
                last: self.last,
            }
        }
    }
}

impl Stretches {
    /// None is known.
    pub(crate) fn new(alloc: Global) -> Stretches {
        Stretches {
            known: Vec::new(alloc),
        }
    }

    /// The numbers around that of a row that have records. Where there are numbers between that have none, it may be more or fewer.
    pub(crate) fn around(&mut self, alloc: Global, records: &Records, row: &mut Row) -> Bounds {
        match self.found(row) {
            Some(bounds) => bounds,
            None => {
                let bounds = search(records, row);
                let _ = self.keep(alloc, row, bounds);
                bounds
            }
        }
    }

    // The numbers that are known for a row.
    fn found(&self, row: &Row) -> Option<Bounds> {
        for stretch in &self.known {
            if stretch.is_of(row) && stretch.bounds.has(row.number()) {
                return Some(stretch.bounds);
            }
        }
        None
    }

    // Keeps a row's numbers in mind, in place of all others where these are many.
    fn keep(&mut self, alloc: Global, row: &Row, bounds: Bounds) -> Result<(), AllocError> {
        if self.known.len() >= MOST {
            self.known.clear();
        }
        self.known.push(Stretch {
            procedure: row.procedure(),
            counted: row.counted(),
            arguments: Vec::from_slice(alloc, row.arguments())?,
            bounds,
        })?;
        Ok(())
    }
}

impl Stretch {
    // Whether a row's instances are those of this one, but for their numbers.
    fn is_of(&self, row: &Row) -> bool {
        self.procedure == row.procedure()
            && self.counted == row.counted()
            && are_same_but(&self.arguments, row.arguments(), self.counted)
    }
}

// Whether these are the same but for the counted one.
fn are_same_but(left: &[i64], right: &[i64], counted: usize) -> bool {
    if left.len() != right.len() {
        return false;
    }
    for place in 0..left.len().min(right.len()) {
        if left[place] != right[place] && place != counted {
            return false;
        }
    }
    true
}

// The numbers around that of a row, as far as there are records.
fn search(records: &Records, row: &mut Row) -> Bounds {
    let number = row.number();
    let first = furthest(records, row, number, -1);
    let last = furthest(records, row, number, 1);
    row.go_to(number);
    Bounds { first, last }
}

// The furthest number from that on in that direction up to which there are records, by steps that are doubled, and then halved.
fn furthest(records: &Records, row: &mut Row, number: i64, direction: i64) -> i64 {
    let mut found = number;
    let mut step = direction;
    for _ in 0..STEPS {
        match there(records, row, found, step) {
            Some(further) => found = further,
            None => return nearest(records, row, found, step),
        }
        step = step.wrapping_mul(2);
    }
    found
}

// The furthest number up to which there are records: that one has a record, the one so far from it has none, and those between are tried
// by steps that are halved.
fn nearest(records: &Records, row: &mut Row, number: i64, missing: i64) -> i64 {
    let mut found = number;
    let mut step = missing / 2;
    for _ in 0..STEPS {
        if step == 0 {
            return found;
        }
        if let Some(further) = there(records, row, found, step) {
            found = further;
        }
        step /= 2;
    }
    found
}

// The number so far on, where it has a record.
fn there(records: &Records, row: &mut Row, number: i64, step: i64) -> Option<i64> {
    let further = number.checked_add(step)?;
    row.go_to(further);
    match find_row(records, row) {
        Some(_) => Some(further),
        None => None,
    }
}
