//! Deques of continuations, whose owner pushes and pops at the back while thieves steal at the front, without a lock.
#![tactic(auto)]

mod continuation;
mod deques;
mod ends;
mod entry;
mod owner;
mod rule;
mod thief;

pub use continuation::Continuation;
pub use deques::{Deques, NewDeque, new_deques};
pub use ends::{all_ends, ends_of};
pub use entry::{Entry, Knowledge, PlainEntry, PlainOwner, PlainThief, Spot};
pub use owner::OwnerEnd;
pub use rule::{Afresh, Counted, Ends, PlacesInOrder, Popped, Pushed, Seen, Stolen};
pub use thief::ThiefEnd;
