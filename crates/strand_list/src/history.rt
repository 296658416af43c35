//! A history replayed.
ghost use Rattle.std.specs.Prelude.{◌≡◌, ◌⊎◌, Some, None, IfOk, IfErr, OnOk};
ghost use Rattle.meaning.specs.Strands.{stepped, replayed};
ghost use Rattle.numbered_runs.specs.Named.{book_step, history};
ghost use Rattle.strand_list.specs.Pages.{shown, Apart};
ghost use Rattle.strand_list.specs.Replays.{lines_of, Refuses};
ghost use Rattle.strand_list.specs.declared.error.ReplayError.TheVariants.{BadStep, NoMemory};

use crate::error::ReplayError;
use crate::page::Page;
use numbered_runs::step::{BookStep, StrandLine};
use std::alloc::{AllocError, Global};

/// Takes a step of that number.
fn take_nth(page: &mut Page, alloc: Global, step: &BookStep, n: usize) -> Result<(), ReplayError>
    requires apart { Apart page.old.lines }
    ensures taken { OnOk result (stepped page.old (book_step step.now) ≡ Some page.new) }
    ensures refused { IfErr result (λ e. (e ≡ NoMemory) ⊎ ((e ≡ BadStep n) × (stepped page.old (book_step step.now) ≡ None))) }
{
    match page.take(alloc, step) {
        Ok(true) => Ok(()),
        Ok(false) => Err(ReplayError::BadStep(n)),
        Err(AllocError) => Err(ReplayError::NoMemory),
    }
}

/// The list that a history leaves; else the number, from 0, of its first step that isn't allowed.
pub fn replay(alloc: Global, steps: &[BookStep]) -> Result<Vec<StrandLine>, ReplayError>
    ensures legal { IfOk result (λ lines. lines_of (replayed (history steps.now))
        ≡ Some (shown lines.items)) }
    ensures refused { IfErr result (Refuses (history steps.now)) }
{
    let mut page = match Page::first(alloc) {
        Ok(page) => page,
        Err(AllocError) => return Err(ReplayError::NoMemory),
    };
    for (n, step) in steps.iter().enumerate() {
        match take_nth(&mut page, alloc, step, n) {
            Ok(()) => {}
            Err(error) => return Err(error),
        }
    }
    Ok(page.into_lines())
}
