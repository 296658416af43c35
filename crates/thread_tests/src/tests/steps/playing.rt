//! Runs of programs as text by lines of steps.
ghost use Rattle.std.specs.Prelude.{◌≡◌, All};

use super::words::{digit, step};
use crate::tests::comparing::same_count;
use reuse_planner::Session;
use session_kit::answers::{answer_text, strands_text};
use session_kit::owners::in_session;
use std::alloc::{AllocError, Global};
use std::fmt::Write;
use std::process::Abort;
use test_kit::texts::SALES;
use trace_report::trace::history_text;
use view_pool::{Kit, Pool, View};
use worker_core::Step;
use worker_core::run::Core;

/// What a line of steps led to.
#[derive(Drop)]
pub struct Played {
    /// The steps that were refused, with the refusals.
    pub refused: String,
    pub strands: String,
    pub history: String,
    pub is_over: bool,
    pub answer: String,
}

impl Played {
    /// Whether these steps were refused, and this is the answer.
    pub fn leads_to(&self, refused: &str, answer: &str) -> bool {
        self.refused.as_str() == refused && self.answer.as_str() == answer
    }
}

/// A hundred small steps; those that are refused are passed over.
pub fn work<V: View>(alloc: Global, core: &mut Core<'_, V>, worker: usize)
    ensures program { core.new.program ≡ core.old.program }
{
    for _ in 0..100 {
        let _ = core.step(alloc, &Step::Work(worker));
    }
}

/// Takes a step, and writes it down where it is refused.
fn take<V: View>(
    rt: &impl Abort,
    alloc: Global,
    core: &mut Core<'_, V>,
    word: &str,
    refused: &mut String,
)
    ensures program { core.new.program ≡ core.old.program }
{
    if let [b'W', worker, b'*'] = word.as_bytes() {
        return work(alloc, core, digit(*worker));
    }
    let step = step(rt, alloc, word.as_bytes()).expect(rt, "a step");
    if let Err(refusal) = core.step(alloc, &step) {
        write!(refused, "{word} {refusal};").expect(rt, "memory");
    }
}

/// Takes the steps of a line, and gives those that were refused.
pub fn take_all<V: View>(
    rt: &impl Abort,
    alloc: Global,
    core: &mut Core<'_, V>,
    line: &str,
) -> String
    ensures program { core.new.program ≡ core.old.program }
{
    let mut refused = String::new(alloc);
    for word in line.split_ascii_whitespace() {
        take(rt, alloc, core, word, &mut refused);
    }
    refused
}

/// The strands and the history where a run stands.
fn state_of<V: View>(alloc: Global, core: &Core<'_, V>) -> Result<(String, String), AllocError> {
    let lines = core.strands(alloc)?;
    let strands = strands_text(alloc, &lines)?;
    Ok((strands, history_text(alloc, 1, core.history())?))
}

/// Runs a session's program by a line of steps over these kits, and gives them back.
pub fn play_over<V: View, W: View>(
    rt: &impl Abort,
    alloc: Global,
    session: &Session<W>,
    pool: Pool<Kit<V>>,
    workers: usize,
    line: &str,
) -> (Played, Pool<Kit<V>>)
    requires kits { All (λ k. k ≡ session.now.checked.kinds) pool.kits }
    ensures kits { All (λ k. k ≡ session.now.checked.kinds) result.1.kits }
{
    session.upheld();
    let (program, tables, records) = (session.checked(), session.tables(), session.records());
    let Ok(mut core) = Core::start(alloc, program, tables, records, pool, workers) else {
        panic!(rt; "not started");
    };
    let refused = take_all(rt, alloc, &mut core, line);
    core.upheld();
    let (strands, history) = state_of(alloc, &core).expect(rt, "memory");
    let is_over = core.is_over();
    let (answer, pool, _) = core.finish(alloc);
    let answer = answer_text(alloc, program, &answer).expect(rt, "memory");
    let played = Played {
        refused,
        strands,
        history,
        is_over,
        answer,
    };
    (played, pool)
}

/// Compares how many kits are free, and how many there are.
fn same_kits(rt: &impl Abort, found: (usize, usize), wanted: (usize, usize)) {
    same_count(rt, found.0, wanted.0);
    same_count(rt, found.1, wanted.1);
}

/// Plays a line over the session's kits, all of which it has again.
fn play_in<V: View>(
    rt: &impl Abort,
    alloc: Global,
    session: &mut Session<V>,
    workers: usize,
    line: &str,
) -> Played {
    let before = session.kits();
    session.upheld();
    let pool = session.take_pool(alloc);
    let (played, pool) = play_over(rt, alloc, session, pool, workers, line);
    session.put_back(pool);
    same_kits(rt, session.kits(), before);
    played
}

/// Runs the program that a text is by a line of steps, over so many kits of plain views.
pub fn play(
    rt: &impl Abort,
    alloc: Global,
    text: &str,
    workers: usize,
    count: usize,
    line: &str,
) -> Played {
    let played = in_session(
        alloc,
        text,
        SALES,
        count,
        |session| play_in(rt, alloc, session, workers, line),
    );
    played.expect(rt, "a session")
}
