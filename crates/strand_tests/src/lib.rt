//! Programs on strands, against answers that were found by hand and against the plain slow program; hypermaps of views that refuse,
//! and deques.
#![tactic(auto)]

#[cfg(test)]
mod tests;
