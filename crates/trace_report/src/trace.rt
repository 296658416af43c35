// The text of a run's history and of what is counted of it.
ghost use Rattle.std.specs.Prelude.{◌≡◌, IfOk, OnOk, string_bytes};
ghost use Rattle.numbered_runs.specs.Named.{book_step, history as steps_of};
ghost use Rattle.trace_report.specs.Outcomes.{Extends};
ghost use Rattle.trace_report.specs.Traces.{laid_text, step_text, history_text, trace_text, splits_in};
ghost use Rattle.trace_report.specs.Traces.{folds_in, instances_text, moves_text, kits_text, counts_text, no_counts_text, stats_text};

use crate::answers::push_run;
use numbered_runs::step::BookStep;
use plain_rules::trace_lines::{push_executed, push_place, push_places};
use std::alloc::{AllocError, Global};
use std::fmt::Write;

/// What is counted of a run that came to a result.
#[derive(Clone, Copy)]
pub struct RunCounts {
    /// Instances with a record of their own that were executed.
    pub executed: usize,
    /// Instances that a record answered.
    pub reused: usize,
    /// Instances that would have had a record, had a kit been free.
    pub unrecorded: usize,
    /// Continuations that were stolen.
    pub steals: usize,
    /// Neighbours that were folded.
    pub folds: usize,
    /// Kits that are free, and those that there are.
    pub free: usize,
    pub kits: usize,
}

// Puts what was laid down, and where, at the end of the text.
fn push_laid(text: &mut String, word: &str, place: &[usize]) -> Result<(), AllocError>
    ensures { OnOk result (Extends text.old text.new (laid_text word.now place.now)) }
{
    write!(text, "{word} ")?;
    push_place(text, place)?;
    writeln!(text)
}

// Puts the line of a step at the end of the text.
fn push_step(text: &mut String, step: &BookStep) -> Result<(), AllocError>
    ensures { OnOk result (Extends text.old text.new (step_text (book_step step.now))) }
{
    match step {
        BookStep::Split(victim, new, thief) => push_places(text, "split", victim, new, *thief),
        BookStep::End(place) => push_laid(text, "end", place),
        BookStep::Stall(place) => push_laid(text, "stall", place),
        BookStep::Fault(place) => push_laid(text, "fault", place),
        BookStep::Finish(place) => push_laid(text, "finish", place),
        BookStep::Fold(left, right, worker) => push_places(text, "fold", left, right, *worker),
    }
}

// Puts the lines of a history at the end of the text.
fn push_history(text: &mut String, history: &[BookStep]) -> Result<(), AllocError>
    ensures { OnOk result (Extends text.old text.new (history_text (steps_of history.now))) }
{
    for step in history {
        push_step(text, step)?;
    }
    Ok(())
}

// Puts a run's number, counted from 1, and its history at the end of the text.
fn push_trace(text: &mut String, number: usize, history: &[BookStep]) -> Result<(), AllocError>
    ensures { OnOk result (Extends text.old text.new (trace_text number (steps_of history.now))) }
{
    push_run(text, number)?;
    push_history(text, history)
}

/// The text of a run's history behind the line of its number, which is counted from 1. Want of memory is the only error.
pub fn history_text(
    alloc: Global,
    number: usize,
    history: &[BookStep],
) -> Result<String, AllocError>
    ensures { IfOk result (λ text. string_bytes text ≡ trace_text number (steps_of history.now)) }
{
    let mut text = String::new(alloc);
    push_trace(&mut text, number, history)?;
    Ok(text)
}

/// How many continuations were stolen.
pub fn steals(history: &[BookStep]) -> usize
    ensures { result ≡ splits_in (steps_of history.now) }
{
    let mut count = 0;
    for step in history {
        if let BookStep::Split(..) = step {
            count += 1;
        }
    }
    count
}

/// How many neighbours were folded.
pub fn folds(history: &[BookStep]) -> usize
    ensures { result ≡ folds_in (steps_of history.now) }
{
    let mut count = 0;
    for step in history {
        if let BookStep::Fold(..) = step {
            count += 1;
        }
    }
    count
}

// Puts the counts of memo instances at the end of the text.
fn push_instances(text: &mut String, counts: RunCounts) -> Result<(), AllocError>
    ensures { OnOk result (Extends text.old text.new (instances_text counts)) }
{
    let RunCounts {
        executed,
        reused,
        unrecorded,
        ..
    } = counts;
    push_executed(text, executed, reused, unrecorded)
}

// Puts the counts of what workers did with strands at the end of the text.
fn push_moves(text: &mut String, counts: RunCounts) -> Result<(), AllocError>
    ensures { OnOk result (Extends text.old text.new (moves_text counts)) }
{
    let RunCounts { steals, folds, .. } = counts;
    write!(text, " steals {steals} folds {folds}")
}

// Puts the counts of kits at the end of the text.
fn push_kits(text: &mut String, counts: RunCounts) -> Result<(), AllocError>
    ensures { OnOk result (Extends text.old text.new (kits_text counts)) }
{
    let RunCounts { free, kits, .. } = counts;
    write!(text, " kits {free} of {kits}")
}

// Puts the line of a run's counts at the end of the text.
fn push_counts(text: &mut String, number: usize, counts: RunCounts) -> Result<(), AllocError>
    ensures { OnOk result (Extends text.old text.new (counts_text number counts)) }
{
    write!(text, "stats {number}")?;
    push_instances(text, counts)?;
    push_moves(text, counts)?;
    push_kits(text, counts)?;
    writeln!(text)
}

// Puts the line of a run that came to a fault at the end of the text: it has no counts.
fn push_no_counts(text: &mut String, number: usize) -> Result<(), AllocError>
    ensures { OnOk result (Extends text.old text.new (no_counts_text number)) }
{
    writeln!(text, "stats {number} none")
}

/// The line of what is counted of the run of that number; there are no counts of one that came to a fault. Want of memory is the only
/// error.
pub fn stats_text(
    alloc: Global,
    number: usize,
    counts: Option<RunCounts>,
) -> Result<String, AllocError>
    ensures { IfOk result (λ text. string_bytes text ≡ stats_text number counts) }
{
    let mut text = String::new(alloc);
    match counts {
        Some(counts) => push_counts(&mut text, number, counts)?,
        None => push_no_counts(&mut text, number)?,
    }
    Ok(text)
}
