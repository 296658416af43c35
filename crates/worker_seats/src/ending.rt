//! How a run by threads comes to its end.
ghost use Rattle.std.specs.Prelude.{◌≡◌, ◌+◌, ◌≤◌, true, false, Some, IfOk, IfErr};
ghost use Rattle.std.specs.Option.{ForNone};
ghost use Rattle.positions.specs.Setting.{Setting};
ghost use Rattle.numbered_runs.specs.Come.{HasEnded};
ghost use Rattle.sync_fold.specs.Books.{is_ended};
ghost use Rattle.sync_fold.specs.Counts.{kits_laid};
ghost use Rattle.sync_fold.specs.Refusals.{WasRefused, is_apart};
ghost use Rattle.worker_seats.specs.Balances.{Balances};
ghost use Rattle.worker_seats.specs.Ends.{IsEnd};
ghost use Rattle.worker_seats.specs.Over.{is_far, is_over, is_noted, is_refusal, is_right, notes_far};
ghost use Rattle.worker_seats.specs.declared.failure.Failure.TheVariants as reason;

use crate::ended::{Ended, kept_of};
use crate::failure::{Failure, mismatch_of};
use crate::kits::{KitsOf, RightPool, Stocked};
use crate::table::Table;
use right_strands::run::{Run, Scene};
use std::alloc::Global;
use sync_fold::{Book, Mismatch};
use view_pool::{Kit, View};

/// How a run has ended that gave up for that reason.
fn without_end(alloc: Global, failure: Failure) -> Result<Ended, Mismatch>
    requires right { is_right failure ≡ true }
    requires near { is_far failure ≡ false }
    ensures end { (setting : Setting) → IfOk result (IsEnd setting) }
    ensures none { IfOk result (λ e. HasEnded e.answer → ⊥) }
    ensures refusal { IfErr result (λ m. is_refusal m.refusal ≡ true) }
    ensures refused { IfErr result (λ m. WasRefused m.refusal) }
    ensures near { IfErr result (λ m. is_apart m.refusal ≡ false) }
    ensures noted { IfErr result (λ m. failure ≡ reason.Refused m.refusal) }
{
    match mismatch_of(failure) {
        Some(mismatch) => Err(mismatch),
        None => Ok(Ended::without_memory(alloc)),
    }
}

/// How a run has come to its end, as its list of strands says; the kits of the strand that is left go home.
fn end_of<J: Run + Stocked, V: View>(
    alloc: Global,
    scene: &Scene<'_, J>,
    book: Book<J, V>,
    pool: &mut RightPool<KitsOf<J>, Kit<V>>,
) -> Ended
    requires ended { is_ended book ≡ true }
    ensures end { IsEnd J.setting result }
    ensures home { kits_laid book.laid + pool.old ≤ J.total → pool.new ≡ kits_laid book.laid + pool.old }
{
    let (answer, tally, steps) = book.end(scene, alloc, pool);
    let tally = kept_of(alloc, &answer, tally);
    Ended {
        answer,
        tally,
        steps,
    }
}

/// How a run has come to its end, as the list of a table says, and the pool, in which all kits are then.
fn end_of_table<J: Run + Stocked, V: View>(
    alloc: Global,
    scene: &Scene<'_, J>,
    table: Table<J, V>,
) -> (Ended, RightPool<KitsOf<J>, Kit<V>>)
    requires ended { is_ended table.book ≡ true }
    requires balanced { Balances table.depot table.book.laid }
    ensures end { IsEnd J.setting result.0 }
    ensures home { result.1 ≡ J.begun }
{
    let Table { book, depot } = table;
    book.counted();
    let mut pool = depot.close();
    let ended = end_of(alloc, scene, book, &mut pool);
    (ended, pool)
}

/// How a run that is over has ended, and the pool: as its list of strands has, unless it gave up.
pub fn outcome_of<J: Run + Stocked, V: View>(
    alloc: Global,
    scene: &Scene<'_, J>,
    table: Table<J, V>,
    failure: Option<Failure>,
) -> (Result<Ended, Mismatch>, RightPool<KitsOf<J>, Kit<V>>)
    requires over { is_over table.book failure ≡ true }
    requires noted { is_noted failure ≡ true }
    requires near { notes_far failure ≡ false }
    requires balanced { ForNone failure (Balances table.depot table.book.laid) }
    ensures end { IfOk result.0 (IsEnd J.setting) }
    ensures refusal { IfErr result.0 (λ m. is_refusal m.refusal ≡ true) }
    ensures refused { IfErr result.0 (λ m. WasRefused m.refusal) }
    ensures near { IfErr result.0 (λ m. is_apart m.refusal ≡ false) }
    ensures noted { IfErr result.0 (λ m. failure ≡ Some (reason.Refused m.refusal)) }
    ensures home { IfOk result.0 (λ e. HasEnded e.answer → result.1 ≡ J.begun) }
{
    match failure {
        Some(failure) => (without_end(alloc, failure), table.into_pool()),
        None => {
            let (ended, pool) = end_of_table(alloc, scene, table);
            (Ok(ended), pool)
        }
    }
}
