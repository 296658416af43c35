//! The list of strands that stands, with the history that made it.
ghost use Rattle.std.specs.Prelude.{◌≡◌, IfOk};
ghost use Rattle.numbered_runs.specs.Named.{book_step};
ghost use Rattle.meaning.specs.Strands.{Split};

use crate::error::BookError;
use crate::laid_state::{LaidState, noted};
use crate::page::Page;
use numbered_runs::step::{BookStep, Place, StrandLine};
use plain_rules::steps::put_step;
use std::alloc::{AllocError, Global};

/// The strands of a run, and the steps that made their list.
#[derive(Drop)]
pub struct Chronicle {
    page: Page,
    history: Vec<BookStep>,
}

/// The step by which a thief goes on with a part of a strand.
fn split_of(
    alloc: Global,
    victim: Place,
    new: &[usize],
    thief: usize,
) -> Result<BookStep, AllocError>
    ensures step { IfOk result (λ s. book_step s ≡ Split victim.items new.now thief) }
{
    let to = Vec::from_slice(alloc, new)?;
    Ok(BookStep::Split(victim, to, thief))
}

impl Chronicle {
    ghost use Rattle.std.specs.Prelude.{◌≡◌, ◌<◌, ◌&&◌, length, true, IfOk, IfErr, OnOk, OnErr, MatchOption, vec_len, vec_capacity};
    ghost use Rattle.meaning.specs.Strands.{Split, Fold, is_free, may_fold, stepped};
    ghost use Rattle.numbered_runs.specs.Named.{book_step};
    ghost use Rattle.strand_list.specs.Pages.{shown, position, are_neighbours, Apart};
    ghost use Rattle.strand_lines.specs.Lines.{has_strand};
    ghost use Rattle.strand_list.specs.Laying.{laying_step};
    ghost use Rattle.strand_list.specs.Steps.{is_allowed_fold};
    ghost use Rattle.strand_list.specs.Chronicled.{Took, Notes, IsRefusedBy, first_chronicle, unless_allowed, split_refusal, laying_refusal};
    ghost use Rattle.strand_list.specs.Chronicles.{told};

    /// The first strand, held by worker 0, with no history.
    pub fn start(alloc: Global) -> Result<Chronicle, AllocError>
        ensures first { IfOk result (λ c. told c ≡ first_chronicle) }
    {
        Ok(Chronicle {
            page: Page::first(alloc)?,
            history: Vec::new(alloc),
        })
    }

    /// The strands in serial order.
    pub fn strands(&self) -> &[StrandLine]
        ensures lines { shown result.now ≡ self.now.page.lines }
    {
        self.page.lines()
    }

    /// The steps so far.
    pub fn history(&self) -> &[BookStep]
        ensures steps { result.now ≡ self.now.history.items }
    {
        &self.history
    }

    /// The steps by themselves.
    pub fn into_history(self) -> Vec<BookStep>
        ensures steps { result ≡ self.history }
    {
        self.history
    }

    /// The number of the line of a place.
    pub fn find(&self, place: &[usize]) -> Option<usize>
        ensures { MatchOption result (position place.now self.now.page.lines ≡ length self.now.page.lines)
            (λ k. (k ≡ position place.now self.now.page.lines) × (k < length self.now.page.lines)) }
    {
        self.page.find(place)
    }

    /// Whether there are strands of both places.
    pub fn has_both(&self, left: &[usize], right: &[usize]) -> bool
        ensures both { result ≡ (has_strand left.now self.now.page.lines && has_strand right.now self.now.page.lines) }
    {
        self.page.has_strand(left) && self.page.has_strand(right)
    }

    /// Whether a strand of the right place stands directly behind one of the left place.
    pub fn are_neighbours(&self, left: &[usize], right: &[usize]) -> bool
        ensures next { result ≡ are_neighbours left.now right.now self.now.page.lines }
    {
        self.page.are_neighbours(left, right)
    }

    /// A step is taken and noted, where it is allowed. Memory is reserved before anything changes.
    fn note(&mut self, alloc: Global, step: BookStep) -> Result<bool, AllocError>
        requires apart { Apart self.old.page.lines }
        ensures noted { IfOk result (λ t. Notes (told self.old) (book_step step) t (told self.new)) }
        ensures same { OnErr result (told self.new ≡ told self.old) }
    {
        self.history.reserve(1)?;
        match self.page.take(alloc, &step) {
            Ok(true) => {
                put_step(&mut self.history, step);
                Ok(true)
            }
            Ok(false) => Ok(false),
            Err(AllocError) => Err(AllocError),
        }
    }

    /// A step is taken and noted, or refused for its cause.
    fn take(&mut self, alloc: Global, step: BookStep) -> Result<(), BookError>
        requires apart { Apart self.old.page.lines }
        ensures taken { OnOk result (Took (told self.old) (book_step step) (told self.new)) }
        ensures refused { IfErr result (IsRefusedBy (unless_allowed (stepped self.old.page (book_step step)))) }
        ensures same { OnErr result (told self.new ≡ told self.old) }
    {
        match self.note(alloc, step) {
            Ok(true) => Ok(()),
            Ok(false) => Err(BookError::NotThere),
            Err(AllocError) => Err(BookError::NoMemory),
        }
    }

    /// A thief goes on with a part of the victim's strand, from the new place on.
    pub fn split(
        &mut self,
        alloc: Global,
        victim: Place,
        new: &[usize],
        thief: usize,
    ) -> Result<(), BookError>
        requires apart { Apart self.old.page.lines }
        ensures taken { OnOk result (Took (told self.old) (Split victim.items new.now thief) (told self.new)) }
        ensures refused { IfErr result (IsRefusedBy (split_refusal self.old.page victim.items new.now thief)) }
        ensures same { OnErr result (told self.new ≡ told self.old) }
    {
        if self.page.lacks_strand(&victim) {
            return Err(BookError::NoStrand);
        }
        match split_of(alloc, victim, new, thief) {
            Ok(step) => self.take(alloc, step),
            Err(AllocError) => Err(BookError::NoMemory),
        }
    }

    /// The strand of that place is laid down so.
    pub fn lay(&mut self, alloc: Global, state: LaidState, place: Place) -> Result<(), BookError>
        requires apart { Apart self.old.page.lines }
        ensures taken { OnOk result (Took (told self.old) (laying_step state place.items) (told self.new)) }
        ensures refused { IfErr result (IsRefusedBy (laying_refusal self.old.page state place.items)) }
        ensures same { OnErr result (told self.new ≡ told self.old) }
    {
        if self.page.lacks_strand(&place) {
            return Err(BookError::NoStrand);
        }
        if !self.page.is_held_at(&place) {
            return Err(BookError::AlreadyLaid);
        }
        self.take(alloc, noted(state, place))
    }

    /// Makes room for the step by which two neighbours become one strand, which the worker holds. The list stays.
    pub fn prepare_fold(
        &mut self,
        left: Place,
        right: Place,
        worker: usize,
    ) -> Result<BookStep, BookError>
        ensures step { IfOk result (λ s. book_step s ≡ Fold left.items right.items worker) }
        ensures may { OnOk result ((may_fold self.old.page.lines left.items right.items && is_free self.old.page.lines worker) ≡ true) }
        ensures room { OnOk result (vec_len self.new.history < vec_capacity self.new.history) }
        ensures refused { IfErr result (IsRefusedBy (unless_allowed (stepped self.old.page (Fold left.items right.items worker)))) }
        ensures same { told self.new ≡ told self.old }
    {
        if !self.page.may_fold(&left, &right, worker) {
            return Err(BookError::NotThere);
        }
        if self.history.reserve(1).is_err() {
            return Err(BookError::NoMemory);
        }
        Ok(BookStep::Fold(left, right, worker))
    }

    /// Two neighbours become one strand, which the worker holds, by a step that was prepared. It takes no memory.
    pub fn fold(&mut self, step: BookStep)
        requires apart { Apart self.old.page.lines }
        requires may { is_allowed_fold self.old.page (book_step step) ≡ true }
        requires room { vec_len self.old.history < vec_capacity self.old.history }
        ensures taken { Took (told self.old) (book_step step) (told self.new) }
    {
        self.page.take_fold(&step);
        put_step(&mut self.history, step);
    }
}
