//! Runs by threads: what workers do at the same time, and that answers, records and kits are the same by any number of them; sessions and
//! runs that are drawn, against the plain slow program; and runs and sessions by given steps, and histories of strands replayed, against
//! answers, counts and lists that were found by hand.
#![tactic(auto)]

#[cfg(test)]
mod tests;
