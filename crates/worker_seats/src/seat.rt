//! A worker's own end of its deque, and its part of the count of those that have left.
ghost use Rattle.std.specs.Prelude.{◌≡◌, ◌+◌, ◌≤◌, true, false, Some, None, All, length, IfOk, IfSome, IfNone, IfErr, OnOk, OnErr};
ghost use Rattle.stealing_deques.specs.Order.{GoesOn, IsBoundTo};
ghost use Rattle.worker_seats.specs.Spots.{bottom_of, own_spot, child_spot};

use crate::waiting::Waiting;
use crate::wanted::Wanted;
use right_strands::run::Run;
use right_strands::strand::RightStrand;
use right_strands::task::RightTask;
use small_steps::lists::WorkLists;
use std::alloc::{AllocError, Global};
use std::marker::Model;
use std::mem;
use std::sync::ledger::{Book as Count, Ledger, Share};
use stealing_deques::{Deques, OwnerEnd, Spot, ThiefEnd};
use view_pool::View;

/// What contracts see of a seat: how often its worker has left, and the spot that its deque is bound to, if it is bound to one.
pub struct PlainSeat {
    pub left: u64,
    pub here: Option<Spot>,
}

/// What a worker has to itself: its end of its deque, its part of the count of those that have left, and lists to work with. Whether its deque
/// may be bound to a spot stands beside it, so that nobody has to ask under the lock where it isn't, and how many continuations the deque should
/// hold.
#[derive(Drop)]
pub struct Seat<J: Run + Ledger + Send, D: Deques> {
    owner: OwnerEnd<Waiting<J>, D>,
    share: Share<J>,
    wanted: Wanted,
    may_be_bound: bool,
    // What the strands work with that its worker goes on with, and whether they do; and whether they are with a strand that its worker has laid
    // down to fold it at once.
    lists: WorkLists,
    serves: bool,
    have_stayed: bool,
}

impl<J: Run + Ledger + Send, D: Deques> Model for Seat<J, D> {
    ghost use Rattle.std.specs.Prelude.{◌≡◌, false, None};
    ghost use Rattle.worker_seats.specs.declared.seat.PlainSeat.{PlainSeat};

    ghost Value = { PlainSeat };

    ghost view = { λ s. record { left = s.share.amount; here = s.owner.here } };

    ghost invariant = { λ s. (s.share.parts ≡ 1) × (s.may_be_bound ≡ false → s.owner.here ≡ None) };
}

impl<J: Run + Ledger + Send, D: Deques> Seat<J, D> {
    /// A seat with that end of a deque and that part of the count.
    fn new(alloc: Global, owner: OwnerEnd<Waiting<J>, D>, share: Share<J>) -> Seat<J, D>
        requires one { share.parts ≡ 1 }
        requires none { share.amount ≡ 0 }
        ensures none { result.left ≡ 0 }
    {
        Seat {
            owner,
            share,
            wanted: Wanted::new(),
            may_be_bound: true,
            lists: WorkLists::new(alloc),
            serves: false,
            have_stayed: false,
        }
    }

    /// Works with these lists from then on, and leaves there those that it had.
    pub fn exchange_lists(&mut self, lists: &mut WorkLists)
        ensures same { self.new ≡ self.old }
    {
        mem::swap(&mut self.lists, lists);
        self.serves = true;
    }

    /// The strand goes on with its lists, where they serve it, and leaves its own here; it has them already where they have stayed with it. It
    /// takes no memory.
    pub fn lend_lists<V: View>(&mut self, strand: &mut RightStrand<J, V>)
        ensures same { self.new ≡ self.old }
        ensures strand { strand.new ≡ strand.old }
    {
        if self.serves && !self.have_stayed {
            strand.exchange_lists(&mut self.lists);
        }
        self.have_stayed = false;
    }

    /// The strand leaves its lists here that it went on with, and takes its own; where its worker will fold it at once they stay with it. It takes
    /// no memory.
    pub fn take_lists<V: View>(&mut self, strand: &mut RightStrand<J, V>, stay: bool)
        ensures same { self.new ≡ self.old }
        ensures strand { strand.new ≡ strand.old }
    {
        if self.serves && !stay {
            strand.exchange_lists(&mut self.lists);
        }
        self.have_stayed = stay;
    }

    /// Whether its deque may be bound to a spot.
    pub fn may_be_bound(&self) -> bool
        ensures unbound { result ≡ false → self.now.here ≡ None }
    {
        self.may_be_bound
    }

    /// The number of its deque.
    pub fn deque(&self) -> usize {
        self.owner.number()
    }

    /// Puts a continuation at the new end of the deque, or hands it back where there is no room.
    pub fn push(&mut self, alloc: Global, task: RightTask<J>) -> Result<(), RightTask<J>>
        requires goes_on { GoesOn (bottom_of task.task) task.task.place }
        requires bound { IsBoundTo self.old.here (own_spot task) }
        ensures pushed { OnOk result (self.new.here ≡ Some (child_spot task)) }
        ensures back { IfErr result (λ t. t ≡ task) }
        ensures same { OnErr result (self.new ≡ self.old) }
    {
        let task = match Box::new(alloc, task) {
            Ok(task) => task,
            Err(refused) => return Err(refused.value),
        };
        self.may_be_bound = true;
        match self.owner.push(Waiting { task }) {
            Ok(()) => {
                self.wanted.note_push();
                Ok(())
            }
            Err(waiting) => Err(Box::into_inner(waiting.task)),
        }
    }

    /// Takes the newest continuation: the one that waits for the child at the spot. A miss says nothing.
    pub fn pop(&mut self) -> Option<Box<RightTask<J>>>
        ensures waits { IfSome result (λ t. self.old.here ≡ Some (child_spot t.value)) }
        ensures popped { IfSome result (λ t. self.new.here ≡ Some (own_spot t.value)) }
        ensures same { IfNone result (self.new ≡ self.old) }
    {
        self.may_be_bound = true;
        match self.owner.pop() {
            Some(waiting) => {
                self.wanted.note_pop();
                Some(waiting.task)
            }
            None => None,
        }
    }

    /// Whether the deque holds enough, so that a spawned child is called.
    pub fn holds_enough(&mut self) -> bool
        ensures same { self.new ≡ self.old }
    {
        let held = self.owner.held_count();
        self.wanted.is_met(held)
    }

    /// Unbinds the seat from where its worker has come to, where all that was pushed was taken, as the thieves' end of the deque counts:
    /// whether it was.
    pub fn unbind_if_drained(&mut self, thief: &mut ThiefEnd<Waiting<J>, D>) -> bool
        ensures drained { result ≡ true → self.new.here ≡ None }
        ensures same { result ≡ false → self.new ≡ self.old }
    {
        if self.owner.unbind_if_drained(thief) {
            self.may_be_bound = false;
            return true;
        }
        false
    }

    /// Counts its worker among those that have left.
    pub fn leave(&mut self, leavers: &mut Count<J>)
        ensures left { self.new ≡ record self.old { left = self.old.left + 1 } }
        ensures counted { leavers.new.total ≡ leavers.old.total + 1 }
    {
        leavers.add(&mut self.share, 1);
    }

    /// As often as its worker has left, at least so many have left in all.
    pub fn audit(&mut self, leavers: &mut Count<J>)
        ensures counted { self.old.left ≤ leavers.old.total }
        ensures same { leavers.new.total ≡ leavers.old.total }
    {
        leavers.audit(&mut self.share);
    }
}

/// A seat for each deque. Want of memory is the only error.
pub fn seats_of<J: Run + Ledger + Send, D: Deques>(
    alloc: Global,
    owners: Vec<OwnerEnd<Waiting<J>, D>>,
    share: Share<J>,
) -> Result<Vec<Seat<J, D>>, AllocError>
    requires parts { share.parts ≡ length owners.items }
    requires none { share.amount ≡ 0 }
    ensures count { IfOk result (λ seats. length seats.items ≡ length owners.items) }
    ensures none_left { IfOk result (λ seats. All (λ seat. seat.left ≡ 0) seats.items) }
{
    let mut owners = owners;
    let mut share = share;
    let mut seats = Vec::new(alloc);
    while let Some(owner) = owners.pop() {
        seats.push(Seat::new(alloc, owner, share.split_off(1, 0)))?;
    }
    Ok(seats)
}
