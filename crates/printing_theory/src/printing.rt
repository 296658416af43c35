//! A program as a text that it is read from again.

ghost use Rattle.std.specs.Prelude.{◌≡◌, ◌≤◌, length, IfOk};
ghost use Rattle.meaning.specs.TreeView.{tree};
ghost use Rattle.program_printer.specs.Printing.{printed};
ghost use Rattle.printing_theory.specs.Again.{IsOfTexts, HasTree};
ghost use Rattle.token_scanner.specs.Scanning.{longest_text};

use meaning::tree::Program;
use std::alloc::{AllocError, Global};

/// A program as text, in its one printed form; an error is a want of memory.
pub fn print(alloc: Global, program: &Program) -> Result<Vec<u8>, AllocError>
    ensures printed { IfOk result (λ text. text.items ≡ printed (tree program.now)) }
    // The text has the program's tree, where its declarations are of texts, as those of each program that `parse` answers, and `parse_define` of such a one.
    ensures round_trip { IfOk result (λ text. IsOfTexts (tree program.now)
        → length text.items ≤ longest_text → HasTree text.items (tree program.now)) }
{
    program_printer::print(alloc, program)
}
