//! The list of strands with the places that were split off, and the steps that it allows.
ghost use Rattle.std.specs.Prelude.{◌<◌};

use crate::laid_state::{LaidState, state_of};
use crate::lines::{
    are_neighbours, find, is_alone, is_free, is_root, may_fold, put_behind, set_state, take_out,
};
use crate::numbers::number_of;
use crate::spares::{copy_of, keep};
use numbered_runs::step::{BookStep, Place, State, StrandLine};
use place_chains::places::Places;
use std::alloc::{AllocError, Global};
use std::marker::Model;
use strand_lines::place_list::PlaceList;
use strand_lines::places::{has_strand, is_held_at, lacks_strand};

/// For how many places that are split off room is made with the first one.
const FEW: usize = 16;

/// The strands in serial order, and the places that were split off, which are found by their numbers. Lists that lines have left are kept
/// for the places of other lines.
#[derive(Drop)]
pub struct Page {
    lines: Vec<StrandLine>,
    split_off: PlaceList,
    numbers: Places,
    spares: Vec<Place>,
}

impl Model for Page {
    ghost use Rattle.std.specs.Prelude.{◌≡◌, map, reverse};
    ghost use Rattle.meaning.specs.Strands.{Book};
    ghost use Rattle.strand_list.specs.Numbers.{number_of};
    ghost use Rattle.strand_list.specs.Pages.{shown};

    ghost Value = { Book };

    ghost view = { λ p. record { lines = shown p.lines.items; split_off = reverse p.split_off } };

    ghost invariant = { λ p. p.numbers.numbers ≡ map number_of p.split_off };
}

/// For how many more numbers of places room is made, where there is none yet or there are some.
fn more_for(is_first: bool) -> usize
    ensures some { 0 < result }
{
    if is_first { FEW } else { 1 }
}

impl Page {
    ghost use Rattle.std.specs.Prelude.{◌≡◌, ◌<◌, ◌&&◌, ◌∷◌, not, true, length, MatchOption, IfOk, OnOk, OnErr};
    ghost use Rattle.meaning.specs.Strands.{Held, Split, Fold, first_book, is_free, is_held_at, may_fold, splits};
    ghost use Rattle.numbered_runs.specs.Named.{book_step};
    ghost use Rattle.strand_list.specs.Pages.{shown, position, are_neighbours, Apart};
    ghost use Rattle.strand_lines.specs.Lines.{is_unused, has_strand};
    ghost use Rattle.strand_list.specs.Laying.{laying_step, may_lay};
    ghost use Rattle.strand_list.specs.Steps.{Takes, is_allowed_fold, may_split};

    /// The first strand, held by worker 0.
    pub fn first(alloc: Global) -> Result<Page, AllocError>
        ensures first { IfOk result (λ p. p ≡ first_book) }
    {
        let mut lines = Vec::new(alloc);
        lines.push(StrandLine {
            place: Vec::new(alloc),
            state: State::Held(0),
        })?;
        Ok(Page {
            lines,
            split_off: PlaceList::new(alloc),
            numbers: Places::new(alloc),
            spares: Vec::new(alloc),
        })
    }

    /// The lines alone.
    pub fn into_lines(self) -> Vec<StrandLine>
        ensures lines { shown result.items ≡ self.lines }
    {
        self.lines
    }

    /// The lines, as they stand.
    pub fn lines(&self) -> &[StrandLine]
        ensures lines { shown result.now ≡ self.now.lines }
    {
        &self.lines
    }

    /// The number of the line of a place.
    pub fn find(&self, place: &[usize]) -> Option<usize>
        ensures { MatchOption result (position place.now self.now.lines ≡ length self.now.lines)
            (λ k. (k ≡ position place.now self.now.lines) × (k < length self.now.lines)) }
    {
        find(&self.lines, place)
    }

    /// Whether a worker holds the strand of that place.
    pub fn is_held_at(&self, place: &[usize]) -> bool
        ensures held { result ≡ is_held_at self.now.lines place.now }
    {
        is_held_at(&self.lines, place)
    }

    /// Whether there is a strand of that place.
    pub fn has_strand(&self, place: &[usize]) -> bool
        ensures has_strand { result ≡ has_strand place.now self.now.lines }
    {
        has_strand(&self.lines, place)
    }

    /// Whether there is no strand of that place.
    pub fn lacks_strand(&self, place: &[usize]) -> bool
        ensures lacks { result ≡ not (has_strand place.now self.now.lines) }
    {
        lacks_strand(&self.lines, place)
    }

    /// Whether a strand of the right place stands directly behind one of the left place.
    pub fn are_neighbours(&self, left: &[usize], right: &[usize]) -> bool
        ensures next { result ≡ are_neighbours left.now right.now self.now.lines }
    {
        are_neighbours(&self.lines, left, right)
    }

    /// Whether the place was never split off: mostly none has its number.
    fn is_unused(&self, place: &[usize]) -> bool
        ensures unused { result ≡ is_unused place.now self.now.split_off }
    {
        if self.numbers.newest(number_of(place)) == 0 {
            return true;
        }
        self.split_off.is_unused(place)
    }

    /// Whether a thief may go on with a part of the victim's strand at that place.
    fn may_split(&self, victim: &[usize], new: &[usize], thief: usize) -> bool
        ensures may { result ≡ may_split self.now victim.now new.now thief }
    {
        is_held_at(&self.lines, victim)
            && !is_root(new)
            && self.is_unused(new)
            && is_free(&self.lines, thief)
    }

    /// A thief's strand stands behind the victim's, and its place is noted. Memory is reserved before anything changes.
    fn put(
        &mut self,
        alloc: Global,
        victim: &[usize],
        new: &[usize],
        thief: usize,
    ) -> Result<(), AllocError>
        ensures lines { OnOk result (self.new.lines ≡ splits self.old.lines victim.now new.now thief) }
        ensures noted { OnOk result (self.new.split_off ≡ new.now ∷ self.old.split_off) }
        ensures same { OnErr result (self.new ≡ self.old) }
    {
        let place = copy_of(&mut self.spares, alloc, new)?;
        self.numbers.reserve(more_for(self.split_off.is_empty()))?;
        self.lines.reserve(1)?;
        self.split_off.push(new)?;
        put_behind(&mut self.lines, victim, place, thief);
        self.numbers.push(number_of(new));
        Ok(())
    }

    /// A thief goes on with a part of the victim's strand, where that is allowed.
    fn split(
        &mut self,
        alloc: Global,
        victim: &[usize],
        new: &[usize],
        thief: usize,
    ) -> Result<bool, AllocError>
        ensures taken { IfOk result (λ t. Takes self.old (Split victim.now new.now thief) t self.new) }
        ensures same { OnErr result (self.new ≡ self.old) }
    {
        if !self.may_split(victim, new, thief) {
            return Ok(false);
        }
        self.put(alloc, victim, new, thief)?;
        Ok(true)
    }

    /// Whether the strand of that place may be laid down so.
    fn may_lay(&self, state: LaidState, place: &[usize]) -> bool
        ensures may { result ≡ may_lay state place.now self.now.lines }
    {
        let held = is_held_at(&self.lines, place);
        match state {
            LaidState::Ended | LaidState::Faulted => held,
            LaidState::Stalled => held && !is_root(place),
            LaidState::Finished => held && is_root(place) && is_alone(&self.lines),
        }
    }

    /// The strand of that place is laid down so, where that is allowed.
    fn lay(&mut self, state: LaidState, place: &[usize]) -> bool
        ensures taken { Takes self.old (laying_step state place.now) result self.new }
    {
        if !self.may_lay(state, place) {
            return false;
        }
        set_state(&mut self.lines, place, state_of(state));
        true
    }

    /// Whether the worker may fold the strands of these places.
    pub fn may_fold(&self, left: &[usize], right: &[usize], worker: usize) -> bool
        ensures may { result ≡ (may_fold self.now.lines left.now right.now && is_free self.now.lines worker) }
    {
        may_fold(&self.lines, left, right) && is_free(&self.lines, worker)
    }

    /// Two neighbours are one strand, which the worker holds, where that is allowed.
    fn fold(&mut self, left: &[usize], right: &[usize], worker: usize) -> bool
        requires apart { Apart self.old.lines }
        ensures taken { Takes self.old (Fold left.now right.now worker) result self.new }
    {
        if !self.may_fold(left, right, worker) {
            return false;
        }
        self.become_one(left, right, worker);
        true
    }

    /// Two neighbours are one strand, which the worker holds, as is allowed.
    fn become_one(&mut self, left: &[usize], right: &[usize], worker: usize)
        requires apart { Apart self.old.lines }
        requires may { (may_fold self.old.lines left.now right.now && is_free self.old.lines worker) ≡ true }
        ensures taken { Takes self.old (Fold left.now right.now worker) true self.new }
    {
        let over = take_out(&mut self.lines, right);
        keep(&mut self.spares, over);
        set_state(&mut self.lines, left, State::Held(worker));
    }

    /// Two neighbours are one strand by a step that is allowed.
    pub fn take_fold(&mut self, step: &BookStep)
        requires apart { Apart self.old.lines }
        requires may { is_allowed_fold self.old (book_step step.now) ≡ true }
        ensures taken { Takes self.old (book_step step.now) true self.new }
    {
        match step {
            BookStep::Fold(left, right, worker) => self.become_one(left, right, *worker),
            _ => unreachable!(),
        }
    }

    /// A step is taken, where it is allowed.
    pub fn take(&mut self, alloc: Global, step: &BookStep) -> Result<bool, AllocError>
        requires apart { Apart self.old.lines }
        ensures taken { IfOk result (λ t. Takes self.old (book_step step.now) t self.new) }
        ensures same { OnErr result (self.new ≡ self.old) }
    {
        match step {
            BookStep::Split(victim, new, thief) => self.split(alloc, victim, new, *thief),
            BookStep::End(place) => Ok(self.lay(LaidState::Ended, place)),
            BookStep::Stall(place) => Ok(self.lay(LaidState::Stalled, place)),
            BookStep::Fault(place) => Ok(self.lay(LaidState::Faulted, place)),
            BookStep::Finish(place) => Ok(self.lay(LaidState::Finished, place)),
            BookStep::Fold(left, right, worker) => Ok(self.fold(left, right, *worker)),
        }
    }
}
