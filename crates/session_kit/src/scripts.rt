//! Scripts as commands of a session, whose runs are by the steps of one worker, and what is answered.

use super::answers::{push_answer, push_counts};
use linked_program::checked::Checked;
use numbered_runs::step::Step;
use reuse_planner::{Answer, ApplyError, Command, Session, play_session};
use script_reader::command::Command as Line;
use script_reader::script::commands;
use std::alloc::{AllocError, Global};
use std::fmt::Write;
use trace_report::answers::push_unknown;
use trace_report::edits::{push_accepted, push_edit_refusal};
use view_pool::View;

/// What a script was answered.
#[derive(Drop)]
pub struct Answers {
    /// The lines of the answers, without the numbers of runs.
    pub lines: String,
    /// What each run that has finished executed, had answered by records, and left unrecorded.
    pub counts: String,
}

/// Puts the answer to an edit at the end of the text.
fn push_edited(text: &mut String, edited: &Result<(), ApplyError>) -> Result<(), AllocError> {
    match edited {
        Ok(()) => push_accepted(text),
        Err(ApplyError::Refused(error)) => push_edit_refusal(text, error),
        Err(ApplyError::NoMemory) => writeln!(text, "no memory"),
    }
}

impl Answers {
    /// No answers yet.
    pub fn none(alloc: Global) -> Answers {
        Answers {
            lines: String::new(alloc),
            counts: String::new(alloc),
        }
    }

    /// Notes what a command of the session was answered.
    pub fn note(
        &mut self,
        alloc: Global,
        program: &Checked,
        answer: &Answer,
    ) -> Result<(), AllocError> {
        match answer {
            Answer::Edit(edited) => push_edited(&mut self.lines, edited),
            Answer::Run(came) => {
                push_answer(alloc, &mut self.lines, program, came)?;
                push_counts(&mut self.counts, came)
            }
        }
    }

    /// Notes what the commands of a script were answered, and where a line of it is none.
    fn note_all(
        &mut self,
        alloc: Global,
        program: &Checked,
        script: &[Line<'_>],
        answers: &[Answer],
    ) -> Result<(), AllocError> {
        let mut next = 0;
        for line in script {
            if let Line::Unknown(number, _) = line {
                push_unknown(&mut self.lines, *number)?;
            } else if next < answers.len() {
                self.note(alloc, program, &answers[next])?;
                next += 1;
            }
        }
        Ok(())
    }
}

/// Steps of one worker, which goes on until it can't; a child that it spawns becomes a call.
pub fn steps_alone(alloc: Global) -> Result<Vec<Step>, AllocError> {
    let mut steps = Vec::new(alloc);
    for _ in 0..50 {
        for _ in 0..30 {
            steps.push(Step::Work(0))?;
        }
        for step in [Step::Inline(0), Step::Pop(0), Step::Stall(0)] {
            steps.push(step)?;
        }
    }
    Ok(steps)
}

/// What a line of a script asks of a session; one that is no command asks for nothing.
fn session_command<'a>(alloc: Global, line: Line<'a>) -> Result<Option<Command<'a>>, AllocError> {
    Ok(match line {
        Line::Unknown(..) => None,
        Line::Change(edit) => Some(Command::Edit(edit)),
        Line::Run => Some(Command::Run {
            workers: 1,
            steps: steps_alone(alloc)?,
        }),
    })
}

/// What a script asks of a session.
pub fn session_commands<'a>(
    alloc: Global,
    script: &'a [u8],
) -> Result<Vec<Command<'a>>, AllocError> {
    let mut asked = Vec::new(alloc);
    for line in commands(alloc, script)? {
        if let Some(command) = session_command(alloc, line)? {
            asked.push(command)?;
        }
    }
    Ok(asked)
}

/// Plays a script by one call of the session.
pub fn played<V: View>(
    alloc: Global,
    session: &mut Session<V>,
    script: &[u8],
) -> Result<Answers, AllocError> {
    let asked = session_commands(alloc, script)?;
    let given = play_session(alloc, session, &asked)?;
    answers_to(alloc, session.checked(), script, &given)
}

/// What the commands of a script were answered, and where a line of it is none.
fn answers_to(
    alloc: Global,
    program: &Checked,
    script: &[u8],
    given: &[Answer],
) -> Result<Answers, AllocError> {
    let lines = commands(alloc, script)?;
    let mut answers = Answers::none(alloc);
    match answers.note_all(alloc, program, &lines, given) {
        Ok(()) => Ok(answers),
        Err(error) => Err(error),
    }
}
