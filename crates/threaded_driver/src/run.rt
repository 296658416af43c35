//! A run by threads.
ghost use Rattle.std.specs.Prelude.{◌≡◌, ◌↔◌, ◌<◌, ◌≤◌, [], true, false, All, length, IfOk, IfErr, OnErr};
ghost use Rattle.linked_program.specs.Checked.{revised_of};
ghost use Rattle.linked_program.specs.TableNames.{columned_of};
ghost use Rattle.record_theory.specs.InStep.{IsInStep};
ghost use Rattle.record_theory.specs.Named.{HaveValues};
ghost use Rattle.positions.specs.Setting.{setting_with};
ghost use Rattle.numbered_runs.specs.Named.{history};
ghost use Rattle.numbered_runs.specs.News.{AreSound};
ghost use Rattle.numbered_runs.specs.Recorded.{HasRecordedBy};
ghost use Rattle.kept_session.specs.Sessions.{AreNewFor, standing_of, stock_of};
ghost use Rattle.session_runs.specs.Runs.{IsFromScratch, LeavesRecords, IsQuietAfter};
ghost use Rattle.numbered_runs.specs.Come.{HasCome, HasEnded};
ghost use Rattle.worker_seats.specs.Histories.{HasHistory};
ghost use Rattle.worker_seats.specs.Ends.{IsEnd};
ghost use Rattle.threaded_driver.specs.Ends.{IsEndFor};
ghost use Rattle.threaded_driver.specs.Finds.{is_left, IsAt};
ghost use Rattle.sync_fold.specs.Refusals.{WasRefused, is_apart};
ghost use Rattle.worker_seats.specs.Over.{is_refusal};
ghost use Rattle.strand_list.specs.declared.error.BookError.TheVariants as error;
ghost use Rattle.std.specs.Thread.{IsSend, IsSync};

use crate::floor::Floor;
use crate::found::Found;
use crate::gate::Gate;
use crate::life::{live_beside_threads, serve, work};
use input_tables::Tables;
use kept_session::Session;
use linked_program::checked::Checked;
use numbered_runs::step::BookStep;
use positions::answer::RunAnswer;
use rerun_records::records::Records;
use right_strands::laid::Tally;
use right_strands::run::Run;
use small_steps::lists::WorkLists;
use std::alloc::{AllocError, Global};
use std::marker::Brand;
use std::sync::Wait;
use std::sync::ledger::Ledger;
use std::thread;
use std::thread::Threads;
use stealing_deques::Deques;
use sync_fold::Mismatch;
use view_pool::{Kit, Pool, View};
use worker_seats::beginning::{Blanks, NewDeques, deques_of};
use worker_seats::ended::Ended;
use worker_seats::kits::Stocked;
use worker_seats::seat::Seat;

/// What a run is lent: a program, its tables, and the records that may answer its memo instances.
#[derive(Clone, Copy)]
struct Borrowed<'a> {
    program: &'a Checked,
    tables: &'a Tables,
    records: &'a Records,
}

/// What a run takes out of its session and puts back: the kits, and lists that the first worker works with.
#[derive(Drop)]
struct Stock<V: View> {
    pool: Pool<Kit<V>>,
    lists: WorkLists,
}

/// Runs a session's program on its tables by so many threads. Its memo instances are answered by the records that hold now, and
/// those that a finished run makes are kept for the next one. The answer is NoKit where no kit is free, and NoMemory where memory
/// is refused; a kit that is then with a strand is lost. The error is that the list of strands refused a worker.
pub fn run_threads<V: View + Send, R: Threads + Wait + Sync, G: Gate>(
    rt: &R,
    alloc: Global,
    session: &mut Session<V>,
    workers: usize,
    gate: &G,
) -> Result<(RunAnswer, Vec<BookStep>), Mismatch>
    requires workers { (0 < workers) × (workers ≤ 16) }
    ensures elision { IfOk result (λ r. IsFromScratch (standing_of session.old) r.0) }
    ensures come { IfOk result (λ r. HasCome r.0) }
    ensures recorded { IfOk result (λ r. LeavesRecords session.old r.0 session.new.records) }
    // Where each execution was recorded, nothing is left to execute.
    ensures quiet { IfOk result (λ r. IsQuietAfter r.0 session.new) }
    ensures same { OnErr result (session.new.records ≡ session.old.records) }
    ensures no_kit { IfOk result (λ r. r.0 ≡ RunAnswer.NoKit ↔ session.old.kits.kits ≡ []) }
    ensures history { IfOk result (λ r. HasHistory r.0 (history r.1.items)) }
    ensures mismatch { IfErr result (λ m. ¬ (m.refusal ≡ error.NoMemory)) }
    // The refusal is one that a call of the list gave.
    ensures refused { IfErr result (λ m. WasRefused m.refusal) }
    ensures near { IfErr result (λ m. ¬ (m.refusal ≡ error.NotNeighbour)) }
    ensures others { session.new
        ≡ record session.old { kits = session.new.kits; records = session.new.records } }
    ensures home { IfOk result (λ r.
        HasEnded r.0 → length session.new.kits.kits ≡ length session.old.kits.kits) }
    ensures total { session.new.kits.total ≡ session.old.kits.total }
{
    if session.has_no_kit() {
        return Ok((RunAnswer::NoKit, Vec::new(alloc)));
    }
    let (ran, pool) = run_taken(rt, alloc, session, workers, gate);
    match ran {
        Ok(ended) => Ok(give_back(alloc, session, pool, ended)),
        Err(mismatch) => {
            session.put_back(pool);
            Err(mismatch)
        }
    }
}

/// Runs a session's program as `run_threads` does, and hands the run's new records out with its answer and its history: the session keeps
/// those that it has. So who waits for the answer needn't wait until the new ones are put in. They may be, by `Session::settle`, until
/// the program or the tables are edited.
pub fn run_unsettled<V: View + Send, R: Threads + Wait + Sync, G: Gate>(
    rt: &R,
    alloc: Global,
    session: &mut Session<V>,
    workers: usize,
    gate: &G,
) -> Result<Ended, Mismatch>
    requires workers { (0 < workers) × (workers ≤ 16) }
    ensures elision { IfOk result (λ e. IsFromScratch (standing_of session.old) e.answer) }
    ensures come { IfOk result (λ e. HasCome e.answer) }
    // What was counted and recorded, and that it may be put among the session's records.
    ensures recorded { IfOk result (λ e. HasRecordedBy session.old.checked session.old.tables session.old.records e.answer e.tally.made) }
    ensures news { IfOk result (λ e. AreNewFor session.new.checked session.new.tables e.tally.made) }
    ensures no_kit { IfOk result (λ e. e.answer ≡ RunAnswer.NoKit ↔ session.old.kits.kits ≡ []) }
    ensures history { IfOk result (λ e. HasHistory e.answer (history e.steps.items)) }
    ensures mismatch { IfErr result (λ m. ¬ (m.refusal ≡ error.NoMemory)) }
    ensures refused { IfErr result (λ m. WasRefused m.refusal) }
    ensures near { IfErr result (λ m. ¬ (m.refusal ≡ error.NotNeighbour)) }
    ensures others { session.new ≡ record session.old { kits = session.new.kits } }
    ensures home { IfOk result (λ e.
        HasEnded e.answer → length session.new.kits.kits ≡ length session.old.kits.kits) }
    ensures total { session.new.kits.total ≡ session.old.kits.total }
{
    if session.has_no_kit() {
        return Ok(without_kit(alloc));
    }
    // The session's records are sound: so the run's new ones may be put among them.
    session.upheld();
    let (ran, pool) = run_taken(rt, alloc, session, workers, gate);
    session.put_back(pool);
    ran
}

/// A run that no kit was free for.
fn without_kit(alloc: Global) -> Ended
    ensures answer { result.answer ≡ RunAnswer.NoKit }
    ensures none { result.tally.made ≡ [] }
{
    Ended {
        answer: RunAnswer::NoKit,
        tally: Tally::new(alloc),
        steps: Vec::new(alloc),
    }
}

/// How a run of a session has ended that has a kit free, and its pool, which isn't put back.
fn run_taken<V: View + Send, R: Threads + Wait + Sync, G: Gate>(
    rt: &R,
    alloc: Global,
    session: &mut Session<V>,
    workers: usize,
    gate: &G,
) -> (Result<Ended, Mismatch>, Pool<Kit<V>>)
    requires workers { (0 < workers) × (workers ≤ 16) }
    ensures end { IfOk result.0 (IsEndFor session.new) }
    ensures mismatch { IfErr result.0 (λ m. ¬ (m.refusal ≡ error.NoMemory)) }
    ensures refused { IfErr result.0 (λ m. WasRefused m.refusal) }
    ensures near { IfErr result.0 (λ m. ¬ (m.refusal ≡ error.NotNeighbour)) }
    ensures taken { session.new ≡ record session.old { kits = stock_of [] } }
    ensures kinds { All (λ k. k ≡ session.new.checked.kinds) result.1.kits }
    ensures home { IfOk result.0 (λ e. HasEnded e.answer → length result.1.kits ≡ length session.old.kits.kits) }
    ensures total { result.1.total ≡ session.old.kits.total }
{
    // What the type keeps of its records, tables and kits: so a run may begin with them.
    session.upheld();
    let pool = session.take_pool(alloc);
    let lists = session.take_lists(alloc);
    let borrowed = Borrowed {
        program: session.checked(),
        tables: session.tables(),
        records: session.records(),
    };
    let (ran, stock) = run_borrowed::<Brand, V, R, G>(
        rt,
        alloc,
        borrowed,
        Stock { pool, lists },
        Blanks::new(workers),
        workers,
        gate,
    );
    let Stock { pool, lists } = stock;
    session.keep_lists(lists);
    match ran {
        Ok(ended) => (Ok(ended), pool),
        Err(mismatch) => (Err(mismatch), pool),
    }
}

/// Gives a session its pool back, and the new records of a run that has ended so; where memory is refused for these, the records
/// are as before.
fn give_back<V: View>(
    alloc: Global,
    session: &mut Session<V>,
    pool: Pool<Kit<V>>,
    ended: Ended,
) -> (RunAnswer, Vec<BookStep>)
    requires kinds { All (λ k. k ≡ session.old.checked.kinds) pool.kits }
    requires end { IsEndFor session.old ended }
    ensures elision { IsFromScratch (standing_of session.old) result.0 }
    ensures come { HasCome result.0 }
    ensures recorded { LeavesRecords session.old result.0 session.new.records }
    ensures quiet { IsQuietAfter result.0 session.new }
    ensures begun { ¬ (result.0 ≡ RunAnswer.NoKit) }
    ensures history { HasHistory result.0 (history result.1.items) }
    ensures ended { HasEnded result.0 → HasEnded ended.answer }
    ensures others { session.new ≡ record session.old { kits = pool; records = session.new.records } }
{
    // The session's records are sound: so the run's new ones may be put among them.
    session.upheld();
    let Ended {
        answer,
        tally,
        steps,
    } = ended;
    match session.settle(pool, tally.into_records()) {
        Ok(()) => (answer, steps),
        Err(AllocError) => (RunAnswer::NoMemory, Vec::new(alloc)),
    }
}

/// How a run of what is lent has ended, and the stock.
fn run_borrowed<J, V, R, G>(
    rt: &R,
    alloc: Global,
    borrowed: Borrowed<'_>,
    stock: Stock<V>,
    blanks: Blanks,
    workers: usize,
    gate: &G,
) -> (Result<Ended, Mismatch>, Stock<V>)
where
    J: Run + Ledger + Stocked + Send + Sync,
    V: View + Send,
    R: Threads + Wait + Sync,
    G: Gate,
    requires same { setting_with borrowed.program.now borrowed.tables.now.tables [] borrowed.records.now ≡ J.setting }
    requires names { borrowed.program.now.tables ≡ columned_of borrowed.tables.now.tables }
    requires sound { AreSound (revised_of borrowed.program.now) borrowed.program.now.tables borrowed.program.now.kinds borrowed.records.now }
    requires values { HaveValues borrowed.program.now.kinds borrowed.records.now }
    requires in_step { IsInStep borrowed.tables.now.tables borrowed.records.now }
    requires kinds { All (λ k. k ≡ J.setting.kinds) stock.pool.kits }
    requires total { stock.pool.total ≡ J.total }
    requires begun { length stock.pool.kits ≡ J.begun }
    requires name { blanks.leavers.name ≡ J.name }
    requires parts { (blanks.leavers.parts ≡ J.parts) × (J.parts ≡ workers) }
    requires ledger { blanks.kits.name ≡ J.ledger }
    requires some { 0 < workers }
    ensures end { IfOk result.0 (IsEnd J.setting) }
    ensures refusal { IfErr result.0 (λ m. is_refusal m.refusal ≡ true) }
    ensures refused { IfErr result.0 (λ m. WasRefused m.refusal) }
    ensures near { IfErr result.0 (λ m. is_apart m.refusal ≡ false) }
    ensures home { IfOk result.0 (λ e. HasEnded e.answer → length result.1.pool.kits ≡ length stock.pool.kits) }
    ensures kinds { All (λ k. k ≡ J.setting.kinds) result.1.pool.kits }
    ensures total { result.1.pool.total ≡ J.total }
{
    match deques_of(alloc, blanks, workers) {
        Ok(deques) => run_through::<J, Brand, V, R, G>(rt, alloc, borrowed, stock, deques, gate),
        Err(AllocError) => (Ok(Ended::without_memory(alloc)), stock),
    }
}

/// How a run of what is lent has ended through these deques, one for each worker, and the stock.
fn run_through<J, D, V, R, G>(
    rt: &R,
    alloc: Global,
    borrowed: Borrowed<'_>,
    stock: Stock<V>,
    deques: NewDeques<J>,
    gate: &G,
) -> (Result<Ended, Mismatch>, Stock<V>)
where
    J: Run + Ledger + Stocked + Send + Sync,
    D: Deques + Send + Sync,
    V: View + Send,
    R: Threads + Wait + Sync,
    G: Gate,
    requires same { setting_with borrowed.program.now borrowed.tables.now.tables [] borrowed.records.now ≡ J.setting }
    requires names { borrowed.program.now.tables ≡ columned_of borrowed.tables.now.tables }
    requires sound { AreSound (revised_of borrowed.program.now) borrowed.program.now.tables borrowed.program.now.kinds borrowed.records.now }
    requires values { HaveValues borrowed.program.now.kinds borrowed.records.now }
    requires in_step { IsInStep borrowed.tables.now.tables borrowed.records.now }
    requires kinds { All (λ k. k ≡ J.setting.kinds) stock.pool.kits }
    requires total { stock.pool.total ≡ J.total }
    requires begun { length stock.pool.kits ≡ J.begun }
    requires named { D.deques ≡ deques }
    requires some { 0 < length deques }
    ensures end { IfOk result.0 (IsEnd J.setting) }
    ensures refusal { IfErr result.0 (λ m. is_refusal m.refusal ≡ true) }
    ensures refused { IfErr result.0 (λ m. WasRefused m.refusal) }
    ensures near { IfErr result.0 (λ m. is_apart m.refusal ≡ false) }
    ensures home { IfOk result.0 (λ e. HasEnded e.answer → length result.1.pool.kits ≡ length stock.pool.kits) }
    ensures kinds { All (λ k. k ≡ J.setting.kinds) result.1.pool.kits }
    ensures total { result.1.pool.total ≡ J.total }
{
    let Borrowed {
        program,
        tables,
        records,
    } = borrowed;
    let Stock { pool, mut lists } = stock;
    match Floor::<J, D, V>::new(alloc, program, tables, records, pool, deques) {
        Ok((floor, seats)) => {
            let (ran, pool) = run_floor(rt, alloc, floor, seats, &mut lists, gate);
            (ran, Stock { pool, lists })
        }
        Err((_, pool)) => (Ok(Ended::without_memory(alloc)), Stock { pool, lists }),
    }
}

/// How a run has ended, and the pool: its first worker goes on by itself at first, with these lists, and then a thread is started for each other
/// seat. The lists then stay as they are.
fn run_floor<J, D, V, R, G>(
    rt: &R,
    alloc: Global,
    floor: Floor<'_, J, D, V>,
    seats: Vec<Seat<J, D>>,
    lists: &mut WorkLists,
    gate: &G,
) -> (Result<Ended, Mismatch>, Pool<Kit<V>>)
where
    J: Run + Ledger + Stocked + Send + Sync,
    D: Deques + Send + Sync,
    V: View + Send,
    R: Threads + Wait + Sync,
    G: Gate,
    requires some { 0 < length seats.items }
    ensures end { IfOk result.0 (IsEnd J.setting) }
    ensures refusal { IfErr result.0 (λ m. is_refusal m.refusal ≡ true) }
    ensures refused { IfErr result.0 (λ m. WasRefused m.refusal) }
    ensures near { IfErr result.0 (λ m. is_apart m.refusal ≡ false) }
    ensures home { IfOk result.0 (λ e. HasEnded e.answer → length result.1.kits ≡ floor.entry.kits) }
    ensures kinds { All (λ k. k ≡ J.setting.kinds) result.1.kits }
    ensures total { result.1.total ≡ J.total }
{
    let mut left = Vec::new(alloc);
    if left.reserve(1).is_err() {
        return (Ok(Ended::without_memory(alloc)), floor.into_pool());
    }
    let mut seats = seats;
    match seats.pop() {
        Some(mut seat) => {
            seat.exchange_lists(lists);
            let mut seat = lead(rt, &floor, seat, seats, gate);
            seat.exchange_lists(lists);
            left.push_reserved(seat);
        }
        None => unreachable!(),
    }
    floor.end(left)
}

/// The first worker's life on that seat. The others are started where the run isn't over after its first goes.
fn lead<J, D, V, R, G>(
    rt: &R,
    floor: &Floor<'_, J, D, V>,
    seat: Seat<J, D>,
    others: Vec<Seat<J, D>>,
    gate: &G,
) -> Seat<J, D>
where
    J: Run + Ledger + Stocked + Send + Sync,
    D: Deques + Send + Sync,
    V: View + Send,
    R: Threads + Wait + Sync,
    G: Gate,
    ensures left { 0 < result.left }
{
    if others.is_empty() {
        return work(rt, floor, seat, gate);
    }
    let mut seat = seat;
    let (number, found) = floor.begin(rt, &mut seat, gate);
    match found {
        Found::Left => seat,
        found => {
            // Strands that others have begun leave lists too: those that stay for the next run stay as they are.
            let mut kept = WorkLists::new(floor.alloc);
            seat.exchange_lists(&mut kept);
            let mut seat = live_beside(rt, floor, number, seat, found, others, gate);
            seat.exchange_lists(&mut kept);
            seat
        }
    }
}

/// The first worker's life from what it has found on, beside the others. It starts a thread for each of them itself: a new thread may take
/// long to begin, and would start others only then. Where none can be made there are fewer of them. It is over when all have left: the
/// system ends their threads meanwhile.
fn live_beside<J, D, V, R, G>(
    rt: &R,
    floor: &Floor<'_, J, D, V>,
    number: usize,
    seat: Seat<J, D>,
    found: Found<J, V>,
    others: Vec<Seat<J, D>>,
    gate: &G,
) -> Seat<J, D>
where
    J: Run + Ledger + Stocked + Send + Sync,
    D: Deques + Send + Sync,
    V: View + Send,
    R: Threads + Wait + Sync,
    G: Gate,
    requires left { is_left found ≡ true → 0 < seat.left }
    requires here { IsAt seat.here found }
    ensures left { 0 < result.left }
{
    thread::scope(
        thread::scope_env(),
        rt,
        move |scope| -> Seat<J, D>
            requires { IsSend J.row × IsSync J.row × IsSend D.row × IsSync D.row × IsSend V.row × IsSync R.row × IsSync G.row
                × (is_left found ≡ true → 0 < seat.left) × IsAt seat.here found }
            ensures { 0 < result.left }
        {
            let threads = others.len() as u64;
            for other in others {
                // A seat ends where its worker has left it: a thread that handed it back would have to send it.
                let _ = scope.spawn(move || serve(rt, floor, other, gate));
            }
            live_beside_threads(rt, floor, number, seat, found, threads, gate)
        },
    )
}
