//! Procedures that are defined in checked programs: the revision numbers then.

use super::beginnings::two_tables;
use super::revisions::numbers_text;
use checked_defines::{DefineError, define};
use linked_program::checked::Checked;
use std::alloc::Global;
use std::process::Abort;

/// What a text that defines procedures makes of a program.
fn defined(
    rt: &impl Abort,
    alloc: Global,
    old: &Checked,
    text: &str,
) -> Result<Checked, DefineError> {
    define(alloc, old, &two_tables(rt, alloc), text.as_bytes())
}

/// The answer to a text that defines procedures: the numbers then, or why it is refused.
pub fn answer_to(rt: &impl Abort, alloc: Global, old: &Checked, text: &str) -> String {
    match defined(rt, alloc, old, text) {
        Ok(after) => numbers_text(rt, alloc, &after),
        Err(error) => format!(in alloc; "{error}").expect(rt, "memory"),
    }
}
