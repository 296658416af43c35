//! Texts that become programs, checked programs and tables; and records of them.

mod beginnings;
mod defines;
mod exhausted;
mod looks;
mod printing;
mod records;
mod revisions;
mod tables;
