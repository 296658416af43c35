//! An owner pushes and pops while a thief steals; then all was taken, once.
ghost use Rattle.std.specs.Prelude.{◌≡◌, suc, [], Some, None, slice_get, true};
ghost use Rattle.stealing_deques.specs.Order.{spot, IsBoundTo};
ghost use Rattle.strand_tests.specs.Names.{name};

use std::alloc::Global;
use std::marker::Brand;
use std::process::Abort;
use std::thread;
use std::thread::Threads;
use stealing_deques::{
    Continuation, Deques, NewDeque, OwnerEnd, ThiefEnd, all_ends, ends_of, new_deques,
};

/// A continuation so deep; a name is as long as it is deep.
#[derive(Drop)]
struct Link {
    depth: u64,
}

impl Continuation for Link {
    ghost use Rattle.std.specs.Prelude.{suc, []};
    ghost use Rattle.strand_tests.specs.Names.{name};

    ghost place = { λ l. name (suc l.depth) };

    ghost bottom = { λ l. name l.depth };

    ghost since = { λ l. [] };
}

/// So many are pushed a round.
const LINKS: u64 = 2000;

/// Pushes the continuation so deep; whether there was room.
fn push_at<D: Deques>(owner: &mut OwnerEnd<Link, D>, depth: u64) -> bool
    requires here { IsBoundTo owner.old.here (spot (name depth) []) }
    ensures pushed { result ≡ true → owner.new.here ≡ Some (spot (name (suc depth)) []) }
{
    owner.push(Link { depth }).is_ok()
}

/// Pushes one below another; how many there was room for.
fn push_all<D: Deques>(owner: &mut OwnerEnd<Link, D>) -> u64
    requires fresh { owner.old.here ≡ None }
{
    for depth in 0..LINKS {
        if !push_at(owner, depth) {
            return depth;
        }
    }
    LINKS
}

/// Pops until there is none, and gives how many there were, and whether each stood above the one before.
fn pop_all<D: Deques>(owner: &mut OwnerEnd<Link, D>) -> (u64, bool) {
    let mut last = u64::MAX;
    for popped in 0..LINKS {
        match owner.pop() {
            None => return (popped, true),
            Some(link) => {
                if link.depth >= last {
                    return (popped, false);
                }
                last = link.depth;
            }
        }
    }
    (LINKS, true)
}

/// What an owner's round comes to: how many it pushed and popped, and whether they came in order.
fn own<D: Deques>(owner: OwnerEnd<Link, D>) -> (OwnerEnd<Link, D>, u64, u64, bool)
    requires fresh { owner.here ≡ None }
{
    let mut owner = owner;
    let pushed = push_all(&mut owner);
    let held = owner.held_count();
    let (popped, in_order) = pop_all(&mut owner);
    (
        owner,
        pushed,
        popped,
        in_order && held as u64 <= pushed && popped <= held as u64,
    )
}

/// What a thief's round comes to: how many it stole, and whether each stood below the one before.
fn rob<D: Deques>(thief: ThiefEnd<Link, D>) -> (ThiefEnd<Link, D>, u64, bool) {
    let mut thief = thief;
    let (mut stolen, mut next, mut in_order) = (0u64, 0, true);
    for _ in 0..4 * LINKS {
        match thief.steal() {
            None => thread::yield_now(),
            Some(link) => {
                in_order = in_order && link.depth >= next;
                next = link.depth.wrapping_add(1);
                stolen = stolen.wrapping_add(1);
            }
        }
    }
    (thief, stolen, in_order)
}

/// A round of both in two threads. All that was pushed was taken in the end.
fn round<R: Abort + Threads + Sync, D: Deques + Send>(
    rt: &R,
    owner: OwnerEnd<Link, D>,
    thief: ThiefEnd<Link, D>,
) -> (OwnerEnd<Link, D>, ThiefEnd<Link, D>)
    requires fresh { owner.here ≡ None }
    ensures fresh { result.0.here ≡ None }
{
    let ((mut owner, pushed, popped, pops), (mut thief, stolen, steals)) = thread::join(
        rt,
        move ||
            requires { owner.here ≡ None }
        { own(owner) },
        move || rob(thief),
    );
    let taken = popped.wrapping_add(stolen);
    assert!(rt; pops && steals && pushed == LINKS && taken == LINKS);
    assert!(rt; owner.unbind_if_drained(&mut thief));
    (owner, thief)
}

/// Three rounds with one deque.
fn three_rounds<R: Abort + Threads + Sync, D: Deques + Send>(rt: &R, deque: NewDeque<Link>)
    requires named { slice_get D.deques 0 ≡ Some deque }
{
    let (owner, thief) = ends_of::<Link, D>(0, deque).expect(rt, "memory");
    let (owner, thief) = round(rt, owner, thief);
    let (owner, thief) = round(rt, owner, thief);
    round(rt, owner, thief);
}

#[test]
fn each_is_taken_once(rt: HostRuntime) {
    for _ in 0..20 {
        let deque = NewDeque::new(rt.alloc(), 4).expect(&rt, "memory");
        three_rounds::<HostRuntime, Brand>(&rt, deque);
    }
}

/// Whether each owner's end has its number.
fn are_numbered<D: Deques>(owners: &[OwnerEnd<Link, D>]) -> bool {
    for number in 0..owners.len() {
        if owners[number].number() != number {
            return false;
        }
    }
    true
}

/// The numbers of the owners' ends of so many deques.
fn numbers<D: Deques>(rt: &impl Abort, alloc: Global, deques: Vec<NewDeque<Link>>) -> usize
    requires named { D.deques ≡ deques.items }
{
    let (owners, thieves) = all_ends::<Link, D>(alloc, deques).expect(rt, "memory");
    assert!(rt; are_numbered(&owners) && owners.len() == thieves.len());
    owners.len()
}

#[test]
fn ends_have_numbers(rt: HostRuntime) {
    let deques = new_deques(rt.alloc(), 16, 1).expect(&rt, "memory");
    assert_eq!(&rt; numbers::<Brand>(&rt, rt.alloc(), deques), 16);
}

/// Whether there is something to steal.
fn steals<D: Deques>(thief: &mut ThiefEnd<Link, D>) -> bool {
    thief.steal().is_some()
}

/// Whether a deque isn't drained while it holds something, nor for the thieves' end of another one.
fn is_drained_in_time<D: Deques>(
    owner: &mut OwnerEnd<Link, D>,
    thief: &mut ThiefEnd<Link, D>,
    stranger: &mut ThiefEnd<Link, D>,
) -> bool
    requires fresh { owner.old.here ≡ None }
{
    push_at(owner, 0)
        && !owner.unbind_if_drained(thief)
        && steals(thief)
        && !owner.unbind_if_drained(stranger)
        && owner.unbind_if_drained(thief)
}

/// So it is with the first of two deques.
fn drained_in_time<D: Deques>(rt: &impl Abort, first: NewDeque<Link>, second: NewDeque<Link>)
    requires first { slice_get D.deques 0 ≡ Some first }
    requires second { slice_get D.deques 1 ≡ Some second }
{
    let (mut owner, mut thief) = ends_of::<Link, D>(0, first).expect(rt, "memory");
    let (_other, mut stranger) = ends_of::<Link, D>(1, second).expect(rt, "memory");
    assert!(rt; is_drained_in_time(&mut owner, &mut thief, &mut stranger));
}

#[test]
fn drained_where_all_was_taken(rt: HostRuntime) {
    let first = NewDeque::new(rt.alloc(), 1).expect(&rt, "memory");
    let second = NewDeque::new(rt.alloc(), 1).expect(&rt, "memory");
    drained_in_time::<Brand>(&rt, first, second);
}
