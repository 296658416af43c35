//! Records by hand, for programs as text.

mod making;
mod parts;
mod reads;
