//! From a text that defines procedures to their source trees, and to the program with them put in.

ghost use Rattle.std.specs.Prelude.{◌≡◌, IfOk, IfErr};
ghost use Rattle.meaning.specs.TreeView.{tree, lines};
ghost use Rattle.source_tree.specs.Source.{Source, source};
ghost use Rattle.procedure_parser.specs.Correct.{IsDefinition, AnswersSource, IsDefinitionFault};
ghost use Rattle.procedure_parser.specs.Defined.{AnswersDefinition, IsDefined};

use crate::define::definition;
use meaning::tree::Program;
use program_edits::with_procedures;
use source_tree::Declaration;
use std::alloc::Global;
use token_readers::{ParseError, TextError, fault_line, room_of};
use token_scanner::{LONGEST_TEXT, tokens};

/// The source trees of the procedures that a text defines for a program. An error is NoMemory, or the line of the first token
/// that can't follow what stands before it: 0 for a text that is too long, the name's for a procedure that would bring the
/// program to 257.
pub fn define_source(
    alloc: Global,
    text: &[u8],
    program: &Program,
) -> Result<Vec<Declaration>, TextError>
    ensures found { IfOk result (λ ds. IsDefinition (tree program.now) (source ds.items) text.now) }
    ensures only { (s : Source) → IsDefinition (tree program.now) s text.now
        → AnswersSource result s }
    ensures fault { IfErr result (λ e. IsDefinitionFault (tree program.now) text.now e) }
{
    if text.len() > LONGEST_TEXT {
        return Err(TextError::too_long());
    }
    let tokens = tokens(alloc, text)?;
    let room = room_of(alloc, program)?;
    match definition(alloc, room, &tokens) {
        Ok(declarations) => Ok(declarations),
        Err(ParseError::Memory) => Err(TextError::NoMemory),
        Err(ParseError::Stuck(left)) => Err(TextError::Text {
            line: fault_line(text, &tokens, left),
        }),
    }
}

/// The program with the procedures of a text put in: each in the place of the one of its name, a new name last, a second one of
/// a name behind the first, with the lines of its own text. An error is NoMemory, or the line of the first token that can't
/// follow what stands before it: 0 for a text that is too long, the name's for a procedure that would bring the program to 257.
pub fn parse_define(alloc: Global, text: &[u8], program: &Program) -> Result<Program, TextError>
    // What is answered is the program with the procedures of a text of the grammar, within the limits.
    ensures found { IfOk result (λ p. IsDefined (tree program.now, lines program.now) text.now
        (tree p, lines p)) }
    // A text of the grammar, within the limits, is put in, unless memory runs out.
    ensures only { (s : Source) → IsDefinition (tree program.now) s text.now
        → AnswersDefinition (tree program.now, lines program.now) result s }
    // A fault is at the first token that can't follow; line 0 is that of a text that is too long.
    ensures fault { IfErr result (λ e. IsDefinitionFault (tree program.now) text.now e) }
{
    match define_source(alloc, text, program) {
        Ok(procedures) => Ok(with_procedures(alloc, program, &procedures)?),
        Err(error) => Err(error),
    }
}
