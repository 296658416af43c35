//! From the bytes of a text to its source tree, or to the line of its fault.

ghost use Rattle.std.specs.Prelude.{IfOk, IfErr};
ghost use Rattle.meaning.specs.TreeView.{tree, lines};
ghost use Rattle.source_tree.specs.Source.{Source, source};
ghost use Rattle.procedure_parser.specs.Correct.{IsText, IsSource, AnswersSource, Answers, IsFault};

use crate::declaration;
use meaning::tree::Program;
use source_tree::{Declaration, lower};
use std::alloc::Global;
use token_readers::{ParseError, TextError, fault_line};
use token_scanner::{LONGEST_TEXT, tokens};

/// The source tree of a text. An error is as that of `parse`.
fn parse_source(alloc: Global, text: &[u8]) -> Result<Vec<Declaration>, TextError>
    // What is read is the source tree of a text of the grammar, within the limits.
    ensures found { IfOk result (λ ds. IsSource (source ds.items) text.now) }
    // A text of the grammar, within the limits, is read, unless memory runs out.
    ensures only { (s : Source) → IsSource s text.now → AnswersSource result s }
    // A fault is at the first token that can't follow; line 0 is that of a text that is too long.
    ensures fault { IfErr result (λ e. IsFault text.now e) }
{
    if text.len() > LONGEST_TEXT {
        return Err(TextError::too_long());
    }
    let tokens = tokens(alloc, text)?;
    match declaration::text(alloc, &tokens) {
        Ok(declarations) => Ok(declarations),
        Err(ParseError::Memory) => Err(TextError::NoMemory),
        Err(ParseError::Stuck(left)) => Err(TextError::Text {
            line: fault_line(text, &tokens, left),
        }),
    }
}

/// The program that a text is. An error is NoMemory, or the line of the first token that can't follow what stands before it: 0 for a text that is too long.
pub fn parse(alloc: Global, text: &[u8]) -> Result<Program, TextError>
    // What is read is the tree of a text of the grammar, within the limits.
    ensures found { IfOk result (λ p. IsText text.now (tree p) (lines p)) }
    // A text of the grammar, within the limits, is read, unless memory runs out.
    ensures only { (s : Source) → IsSource s text.now → Answers result s }
    // A fault is at the first token that can't follow; line 0 is that of a text that is too long.
    ensures fault { IfErr result (λ e. IsFault text.now e) }
{
    match parse_source(alloc, text) {
        Ok(declarations) => Ok(lower(alloc, &declarations)?),
        Err(error) => Err(error),
    }
}
