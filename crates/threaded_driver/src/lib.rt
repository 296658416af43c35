//! Runs of a session's program by threads: one lock over the list of strands and the pool of kits, and deques outside of it.
#![tactic(auto)]

mod alone;
mod bell;
mod desk;
mod floor;
mod found;
pub mod gate;
mod life;
mod locking;
mod parts;
pub mod run;
mod spawned;
mod steps;

pub use floor::{Floor, PlainFloor};
pub use gate::{Gate, NoGate, Point};
pub use life::work;
pub use numbered_runs::refusal::StartError;
pub use right_strands::laid::Tally;
pub use right_strands::run::Run;
pub use run::{run_threads, run_unsettled};
pub use stealing_deques::Deques;
pub use sync_fold::Mismatch;
pub use worker_seats::beginning::{Blanks, NewDeques, deques_of};
pub use worker_seats::ended::Ended;
pub use worker_seats::failure;
pub use worker_seats::kits::Stocked;
pub use worker_seats::seat::{PlainSeat, Seat};
