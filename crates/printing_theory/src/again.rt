//! A program printed, and read again.

ghost use Rattle.std.specs.Prelude.{◌≡◌, ◌<◌, ◌≤◌, length};
ghost use Rattle.meaning.specs.TreeView.{tree};
ghost use Rattle.program_printer.specs.Printing.{printed};
ghost use Rattle.printing_theory.specs.Again.{IsOfText, IsOfTexts, IsAgain, IsTooLong};
ghost use Rattle.token_scanner.specs.Scanning.{longest_text};

use crate::printing::print;
use meaning::tree::Program;
use procedure_parser::{TextError, parse};
use std::alloc::Global;

/// The program that the printed text of a program is read as. An error is NoMemory, or line 0 where the printed text is too
/// long; no other where the program is that of a text, or its declarations are of several texts.
pub fn print_and_parse(alloc: Global, program: &Program) -> Result<Program, TextError>
    // A program that was read is read again with the same tree.
    ensures text { IsOfText (tree program.now) → length (printed (tree program.now)) ≤ longest_text
        → IsAgain (tree program.now) result }
    // A program whose declarations are of several texts is read again with the same tree, too.
    ensures texts { IsOfTexts (tree program.now)
        → length (printed (tree program.now)) ≤ longest_text → IsAgain (tree program.now) result }
    // A program whose printed text is too long is refused at line 0.
    ensures long { longest_text < length (printed (tree program.now)) → IsTooLong result }
{
    let text = print(alloc, program)?;
    parse(alloc, &text)
}
