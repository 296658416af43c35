//! Prints programs.

ghost use Rattle.std.specs.Prelude.{◌≡◌, IfOk};
ghost use Rattle.meaning.specs.TreeView.{tree};
ghost use Rattle.program_printer.specs.Printing.{printed};

use crate::declaration::put_declaration;
use meaning::tree::Program;
use std::alloc::{AllocError, Global};

/// A program as text, in its one printed form; an error is a want of memory.
pub fn print(alloc: Global, program: &Program) -> Result<Vec<u8>, AllocError>
    ensures printed { IfOk result (λ text. text.items ≡ printed (tree program.now)) }
{
    let mut text = String::new(alloc);
    for declaration in &program.declarations {
        put_declaration(&mut text, declaration)?;
    }
    Ok(text.into_bytes())
}
