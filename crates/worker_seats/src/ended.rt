//! How a run has ended.
ghost use Rattle.std.specs.Prelude.{◌≡◌};
ghost use Rattle.right_strands.specs.Laid.{HasRecorded};
ghost use Rattle.record_theory.specs.Named.{HaveValues};
ghost use Rattle.positions.specs.Setting.{Setting};
ghost use Rattle.worker_seats.specs.Ends.{IsAlone, IsEnd};
ghost use Rattle.positions.specs.declared.answer.RunAnswer.TheVariants as answer;

use numbered_runs::step::BookStep;
use positions::answer::RunAnswer;
use right_strands::laid::Tally;
use std::alloc::Global;
use worker_rules::its_end::is_finished;

/// How a run has ended: its answer, its tally with its new records in the lists in which workers made them, and the steps of its list of
/// strands.
#[derive(Drop)]
pub struct Ended {
    pub answer: RunAnswer,
    pub tally: Tally,
    pub steps: Vec<BookStep>,
}

impl Ended {
    /// A run that memory was refused to.
    pub fn without_memory(alloc: Global) -> Ended
        ensures answer { result.answer ≡ answer.NoMemory }
        ensures end { (setting : Setting) → IsEnd setting result }
    {
        Ended {
            answer: RunAnswer::NoMemory,
            tally: Tally::new(alloc),
            steps: Vec::new(alloc),
        }
    }
}

/// The tally that is kept of a run with that answer: with the records that were made, where it has finished, and else with none.
pub fn kept_of(alloc: Global, answer: &RunAnswer, tally: Tally) -> Tally
    ensures alone { IsAlone answer.now result.made }
    ensures recorded { (setting : Setting) → HasRecorded setting answer.now tally.made → HasRecorded setting answer.now result.made }
    ensures values { (setting : Setting) → HaveValues setting.kinds tally.made → HaveValues setting.kinds result.made }
{
    if is_finished(answer) {
        return tally;
    }
    Tally::new(alloc)
}
