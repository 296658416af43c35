//! The rule of a deque, and what each step of an end tells it.

use crate::continuation::Continuation;
use crate::entry::{Entry, Knowledge};
use crossbeam_deque::protocol::{Join, Lesson, Outcome, Protocol, Split};

/// The rule: each place begins with the one in front of it, each push's number stands once among what is held and what was taken,
/// and what was stolen was pushed before all that is held, in that order.
pub struct PlacesInOrder;

impl<T: Continuation> Protocol<Entry<T>, Knowledge> for PlacesInOrder {
    ghost use Rattle.std.specs.Prelude.{true, false, [], None};
    ghost use Rattle.stealing_deques.specs.Order.{knowing, IsInOrder};
    ghost use Rattle.stealing_deques.specs.Entries.{entries};

    ghost holds = { λ items views. IsInOrder (entries T.place T.bottom T.since items) views };

    ghost first = { knowing true true 0 None [] [] };

    ghost guest = { knowing false false 0 None [] [] };
}

/// What a push tells the owner.
pub struct Pushed;

impl<T: Continuation> Outcome<Entry<T>, Knowledge> for Pushed {
    ghost use Rattle.std.specs.Prelude.{◌≡◌};
    ghost use Rattle.stealing_deques.specs.Order.{IfOne, after_push};
    ghost use Rattle.stealing_deques.specs.Entries.{entries};

    ghost then = { λ v xs w. IfOne (entries T.place T.bottom T.since xs) (λ c. w ≡ after_push v c) };
}

/// What a pop tells the owner.
pub struct Popped;

impl<T: Continuation> Outcome<Entry<T>, Knowledge> for Popped {
    ghost use Rattle.std.specs.Prelude.{◌≡◌, Some};
    ghost use Rattle.stealing_deques.specs.Order.{IfOne, after_pop};
    ghost use Rattle.stealing_deques.specs.Entries.{entries};

    ghost then = { λ v xs w. IfOne (entries T.place T.bottom T.since xs) (λ c. (v.here ≡ Some c.at) × (w ≡ after_pop v c)) };
}

/// What a steal tells the thief.
pub struct Stolen;

impl<T: Continuation> Outcome<Entry<T>, Knowledge> for Stolen {
    ghost use Rattle.std.specs.Prelude.{◌≡◌};
    ghost use Rattle.stealing_deques.specs.Order.{ComeBefore, IfOne, after_steal};
    ghost use Rattle.stealing_deques.specs.Entries.{entries};

    ghost then = { λ v xs w. IfOne (entries T.place T.bottom T.since xs) (λ c. (w ≡ after_steal v c) × ComeBefore c.number v.stolen) };
}

/// What the owner learns of the entries.
pub struct Seen;

impl<T: Continuation> Lesson<Entry<T>, Knowledge> for Seen {
    ghost use Rattle.stealing_deques.specs.Order.{AreSeen};
    ghost use Rattle.stealing_deques.specs.Entries.{entries};

    ghost fact = { λ v items. AreSeen v (entries T.place T.bottom T.since items) };
}

/// What one that has both ends learns of the entries.
pub struct Counted;

impl<T: Continuation> Lesson<Entry<T>, Knowledge> for Counted {
    ghost use Rattle.stealing_deques.specs.Order.{AreCounted};
    ghost use Rattle.stealing_deques.specs.Entries.{entries};

    ghost fact = { λ v items. AreCounted v (entries T.place T.bottom T.since items) };
}

/// The two ends: the owner's side keeps what was popped, the thieves' side what was stolen.
pub struct Ends;

impl Split<Knowledge> for Ends {
    ghost use Rattle.stealing_deques.specs.Order.{owning, stealing};

    ghost left = { λ v. owning v v.here };

    ghost right = { stealing };
}

impl Join<Knowledge> for Ends {
    ghost use Rattle.std.specs.Prelude.{true, false, [], None};
    ghost use Rattle.stealing_deques.specs.Order.{knowing};

    ghost both = { λ v w. knowing true true v.pushed v.here v.popped w.stolen };

    ghost spent = { knowing false false 0 None [] [] };
}

/// The two ends where the deque is empty: the owner is bound to no spot.
pub struct Afresh;

impl Split<Knowledge> for Afresh {
    ghost use Rattle.std.specs.Prelude.{None};
    ghost use Rattle.stealing_deques.specs.Order.{owning, stealing};

    ghost left = { λ v. owning v None };

    ghost right = { stealing };
}
