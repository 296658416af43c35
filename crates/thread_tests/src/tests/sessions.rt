//! Sessions and runs that are drawn. What is wanted is the answer of the slow serial program.

mod drawn;
mod fitting;
mod model;
mod numbers;
mod programs;
mod random;
mod runs;
mod slow;
