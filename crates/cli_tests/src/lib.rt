//! The program's calls in memory: each once as it is meant, and with streams, views and memory that fail; and a report that a
//! program of one's own holds. What a session of the program shows stands in tests/.
#![tactic(auto)]

#[cfg(test)]
mod beginning_tests;
#[cfg(test)]
mod embedded_tests;
#[cfg(test)]
mod ending_tests;
#[cfg(test)]
mod memory_tests;
#[cfg(test)]
mod prepared_tests;
#[cfg(test)]
mod running;
#[cfg(test)]
mod stream_tests;
