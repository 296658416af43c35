// What a session does by steps that are given: a run, and commands one after another.
ghost use Rattle.std.specs.Prelude.{◌≡◌, ◌↔◌, ◌≤◌, [], IfOk, OnErr, length, vec_capacity};
ghost use Rattle.kept_session.specs.Sessions.{standing_of};
ghost use Rattle.session_runs.specs.Runs.{IsFromScratch, LeavesRecords, IsQuietAfter};
ghost use Rattle.reuse_planner.specs.Runs.{IsLed};
ghost use Rattle.reuse_planner.specs.Played.{IsDone, AreDone, AnswerElision};

use crate::commands::{Answer, Command};
use crate::running::run_on;
use kept_session::Session;
use std::alloc::{AllocError, Global};
use view_pool::View;
use worker_core::{RunAnswer, Step};

/// Runs the program by so many workers, which take these steps. A step that can't be taken is passed over, a push for which
/// memory is refused is done as an inline, and where memory is refused for another step the run ends. The records that hold
/// now answer memo instances; those of a run that has finished are put among the others, all or none.
pub fn run_session<V: View>(
    alloc: Global,
    session: &mut Session<V>,
    workers: usize,
    steps: &[Step],
) -> RunAnswer
    // A result or a fault is the elision's of the program on the tables, from scratch.
    ensures elision { IsFromScratch (standing_of session.old) result }
    // The steps lead to that end by the definitions, or to none.
    ensures led { IsLed session.old workers steps.now session.new.inlined result }
    ensures no_kit { result ≡ RunAnswer.NoKit ↔ session.old.kits.kits ≡ [] }
    ensures recorded { LeavesRecords session.old result session.new.records }
    // Where each execution was recorded, nothing is left to execute.
    ensures quiet { IsQuietAfter result session.new }
    ensures others { session.new ≡ record session.old {
      kits = session.new.kits;
      records = session.new.records;
      inlined = session.new.inlined;
    } }
    ensures free { length session.new.kits.kits ≡ length session.old.kits.kits }
    ensures total { session.new.kits.total ≡ session.old.kits.total }
{
    session.note_inlined(0);
    if session.has_no_kit() {
        return RunAnswer::NoKit;
    }
    // The session's records are sound: so the run's answer is the elision's, and its new records may be put among them.
    session.upheld();
    let pool = session.take_pool(alloc);
    let ended = run_on(
        alloc,
        session.checked(),
        session.tables(),
        session.records(),
        pool,
        workers,
        steps,
    );
    session.note_inlined(ended.inlined);
    if session.settle(ended.pool, ended.made).is_err() {
        return RunAnswer::NoMemory;
    }
    ended.answer
}

/// Does commands in their order, each in the session that those before have left. Whatever the edits and runs before it,
/// each run that comes to its end answers the elision of the program on the tables as they are then, done from scratch.
/// Where memory is refused for the answers nothing is done.
pub fn play_session<V: View>(
    alloc: Global,
    session: &mut Session<V>,
    commands: &[Command<'_>],
) -> Result<Vec<Answer>, AllocError>
    ensures elision { IfOk result (λ answers.
        AnswerElision (standing_of session.old) commands.now answers.items) }
    ensures done { IfOk result (λ answers.
        AreDone session.old commands.now answers.items session.new) }
    ensures same { OnErr result (session.new ≡ session.old) }
{
    let mut answers = Vec::with_capacity(alloc, commands.len())?;
    obey_all(alloc, session, commands, &mut answers);
    Ok(answers)
}

/// Does commands in their order, for whose answers there is room.
fn obey_all<V: View>(
    alloc: Global,
    session: &mut Session<V>,
    commands: &[Command<'_>],
    answers: &mut Vec<Answer>,
)
    requires none { answers.old.items ≡ [] }
    requires room { length commands.now ≤ vec_capacity answers.old }
    ensures done { AreDone session.old commands.now answers.new.items session.new }
{
    for command in commands {
        let answer = obey(alloc, session, command);
        answers.push_reserved(answer);
    }
}

/// Does a command.
fn obey<V: View>(alloc: Global, session: &mut Session<V>, command: &Command<'_>) -> Answer
    ensures done { IsDone session.old command.now result session.new }
{
    match command {
        Command::Edit(edit) => Answer::Edit(session.apply(alloc, edit)),
        Command::Run { workers, steps } => Answer::Run(run_session(
            alloc, session, *workers, steps,
        )),
    }
}
