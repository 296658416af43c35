//! What a run comes to, as text.

use linked_program::checked::Checked;
use numbered_runs::step::StrandLine;
use positions::answer::RunAnswer;
use std::alloc::{AllocError, Global};
use std::fmt::Write;
use trace_report::answers::push_outcome;

/// Puts what a run came to at the end of the text: the lines of a result or of a fault, or why there is neither.
pub fn push_answer(
    alloc: Global,
    text: &mut String,
    program: &Checked,
    answer: &RunAnswer,
) -> Result<(), AllocError> {
    match answer {
        RunAnswer::Unfinished => writeln!(text, "unfinished"),
        RunAnswer::NoMemory => writeln!(text, "no memory"),
        RunAnswer::NoKit => writeln!(text, "no kit"),
        ended => push_outcome(alloc, text, program, ended),
    }
}

/// What a run came to.
pub fn answer_text(
    alloc: Global,
    program: &Checked,
    answer: &RunAnswer,
) -> Result<String, AllocError> {
    let mut text = String::new(alloc);
    push_answer(alloc, &mut text, program, answer)?;
    Ok(text)
}

/// Puts the counts of a run that has finished at the end of the text: how many instances were executed, answered by records, and
/// left unrecorded.
pub fn push_counts(text: &mut String, answer: &RunAnswer) -> Result<(), AllocError> {
    match answer {
        RunAnswer::Finished {
            executed,
            reused,
            unrecorded,
            ..
        } => write!(text, "{executed} {reused} {unrecorded}; "),
        _ => Ok(()),
    }
}

/// What a run came to, with its counts.
pub fn counted_text(
    alloc: Global,
    program: &Checked,
    answer: &RunAnswer,
) -> Result<String, AllocError> {
    let mut text = answer_text(alloc, program, answer)?;
    push_counts(&mut text, answer)?;
    Ok(text)
}

/// The strands in serial order: the place and the state of each.
pub fn strands_text(alloc: Global, strands: &[StrandLine]) -> Result<String, AllocError> {
    let mut text = String::new(alloc);
    for strand in strands {
        write!(text, "{:?} {:?};", strand.place, strand.state)?;
    }
    Ok(text)
}
