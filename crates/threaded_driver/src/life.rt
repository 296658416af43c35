//! A worker's life.
ghost use Rattle.std.specs.Prelude.{◌≡◌, ◌<◌, true, None};
ghost use Rattle.worker_seats.specs.Spots.{spot_of};
ghost use Rattle.threaded_driver.specs.Finds.{is_left, IsAt};

use crate::bell::Listener;
use crate::floor::Floor;
use crate::found::Found;
use crate::gate::Gate;
use right_strands::run::Run;
use small_steps::lists::WorkLists;
use std::alloc::{AllocError, Global};
use std::sync::Wait;
use std::sync::ledger::Ledger;
use stealing_deques::Deques;
use view_pool::View;
use worker_seats::kits::Stocked;
use worker_seats::seat::Seat;

/// One worker's life: it leaves where the run is over.
pub fn work<J, D, V, R, G>(
    rt: &R,
    floor: &Floor<'_, J, D, V>,
    seat: Seat<J, D>,
    gate: &G,
) -> Seat<J, D>
where
    J: Run + Ledger + Stocked + Send,
    D: Deques,
    V: View,
    R: Wait,
    G: Gate,
    ensures left { 0 < result.left }
{
    let mut seat = seat;
    let (number, found) = floor.come(rt, &mut seat);
    live(rt, floor, number, seat, found, gate)
}

/// The life of a worker in a thread of its own, whose seat ends with it. Whatever strand it works on, that does so with this worker's lists: in
/// strands' boxes there would be as many as strands lie side by side, all to be let go before the answer.
pub(crate) fn serve<J, D, V, R, G>(rt: &R, floor: &Floor<'_, J, D, V>, seat: Seat<J, D>, gate: &G)
where
    J: Run + Ledger + Stocked + Send,
    D: Deques,
    V: View,
    R: Wait,
    G: Gate,
{
    floor.bell().come(rt);
    // Want of memory shows where the worker needs some.
    let _ = use_memory(floor.alloc);
    let mut seat = seat;
    let mut lists = WorkLists::new(floor.alloc);
    seat.exchange_lists(&mut lists);
    let _ = work(rt, floor, seat, gate);
    drop(lists);
    floor.bell().part();
}

/// Takes a little memory and gives it back. Where a thread first takes some, the system makes room for what it will take, which lasts as long as
/// several steals: a worker that came to that under the lock would hold up the others.
fn use_memory(alloc: Global) -> Result<(), AllocError> {
    let mut list: Vec<u64> = Vec::new(alloc);
    reserve_one(&mut list)
}

/// Room for one number. It is no part of who lets the list go: the compiler would spare both.
#[inline(never)]
fn reserve_one(list: &mut Vec<u64>) -> Result<(), AllocError> {
    list.reserve(1)
}

/// The life of the first worker, from what it has found on, beside so many threads, which begin with it.
pub(crate) fn live_beside_threads<J, D, V, R, G>(
    rt: &R,
    floor: &Floor<'_, J, D, V>,
    number: usize,
    seat: Seat<J, D>,
    found: Found<J, V>,
    threads: u64,
    gate: &G,
) -> Seat<J, D>
where
    J: Run + Ledger + Stocked + Send,
    D: Deques,
    V: View,
    R: Wait,
    G: Gate,
    requires left { is_left found ≡ true → 0 < seat.left }
    requires here { IsAt seat.here found }
    ensures left { 0 < result.left }
{
    floor.bell().begin(threads);
    let seat = live(rt, floor, number, seat, found, gate);
    floor.bell().await_parted(threads);
    seat
}

/// The life of a worker that has come, from what it has found on.
fn live<J, D, V, R, G>(
    rt: &R,
    floor: &Floor<'_, J, D, V>,
    number: usize,
    seat: Seat<J, D>,
    found: Found<J, V>,
    gate: &G,
) -> Seat<J, D>
where
    J: Run + Ledger + Stocked + Send,
    D: Deques,
    V: View,
    R: Wait,
    G: Gate,
    requires left { is_left found ≡ true → 0 < seat.left }
    requires here { IsAt seat.here found }
    ensures left { 0 < result.left }
{
    let mut seat = seat;
    let next = match found {
        Found::Left => return seat,
        Found::Nothing => Found::Nothing,
        Found::Own(held) | Found::Folded(held) | Found::Stolen(held) => {
            floor.run_strand(rt, number, &mut seat, held, gate)
        }
    };
    seek(rt, floor, number, seat, next, gate)
}

/// Waits for the next look, where the last one was in vain. Who has laid a strand down has looked under the lock of that, and listens only from
/// then on: to look once more at once would be in vain nearly always.
fn wait_behind<J, V, R>(rt: &R, listener: &Listener<'_>, found: &Found<J, V>)
where
    J: Run + Stocked,
    V: View,
    R: Wait,
{
    match found {
        Found::Nothing => {
            listener.listen();
            listener.wait(rt);
        }
        _ => {}
    }
}

/// The life of a worker that listens for the bell where it has no strand, from what it has found on.
fn seek<J, D, V, R, G>(
    rt: &R,
    floor: &Floor<'_, J, D, V>,
    number: usize,
    seat: Seat<J, D>,
    found: Found<J, V>,
    gate: &G,
) -> Seat<J, D>
where
    J: Run + Ledger + Stocked + Send,
    D: Deques,
    V: View,
    R: Wait,
    G: Gate,
    requires left { is_left found ≡ true → 0 < seat.left }
    requires fresh { seat.here ≡ None }
    ensures left { 0 < result.left }
{
    let mut seat = seat;
    let mut found = found;
    let listener = floor.bell().listener();
    for _ in rt.forever() {
        let is_stolen = matches!(&found, Found::Stolen(_));
        found = match found {
            Found::Left => return seat,
            Found::Nothing => {
                listener.listen();
                let next = floor.find_if_free(number, &mut seat, gate);
                wait_behind(rt, &listener, &next);
                next
            }
            Found::Own(held) | Found::Folded(held) | Found::Stolen(held) => {
                listener.leave(is_stolen);
                let next = floor.run_strand(rt, number, &mut seat, held, gate);
                wait_behind(rt, &listener, &next);
                next
            }
        };
    }
    unreachable!()
}
