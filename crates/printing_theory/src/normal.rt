//! The normal form of a text: its program, printed.

ghost use Rattle.std.specs.Prelude.{◌≤◌, List, ℕ, length, IfOk, IfErr};
ghost use Rattle.printing_theory.specs.Normal.{IsNormalForm, HasNoForm};
ghost use Rattle.token_scanner.specs.Scanning.{longest_text};

use crate::printing::print;
use procedure_parser::{TextError, parse};
use std::alloc::Global;

/// The normal form of a program's text: a text with the same tree, where it isn't too long. An error is as that of
/// `parse`.
pub fn normal_form(alloc: Global, program: &[u8]) -> Result<Vec<u8>, TextError>
    ensures normal { IfOk result (λ text. IsNormalForm program.now text.items) }
    ensures refused { IfErr result (HasNoForm program.now) }
{
    let program = parse(alloc, program)?;
    Ok(print(alloc, &program)?)
}

/// A normal form that isn't too long is its own normal form.
pub fn laws_of_normal_forms()
    ensures again { (program text : List ℕ) → IsNormalForm program text
        → length text ≤ longest_text → IsNormalForm text text }
{}
