// The commands of a script, line by line.
ghost use Rattle.std.specs.Prelude.{◌≡◌, ◌<◌, Some, ◌∷◌, ◌++◌, true, IfOk, IfSome, OnOk, map, codes};
ghost use Rattle.std.specs.Option.{option_to_list};
ghost use Rattle.meaning.specs.Every.{every};
ghost use Rattle.meaning.specs.Script.{is_shown, are_only, words as words_of, command_of, line_command as command_in, commands as commands_of};
ghost use Rattle.script_lines.specs.Words.{bytes_of};
ghost use Rattle.script_lines.specs.Lines.{IsLine, text_of};
ghost use Rattle.script_reader.specs.Said.{said, maybe_said};
ghost use Rattle.script_reader.specs.Commands.{commands_at};

use crate::command::Command;
use crate::edits::edit;
use script_lines::defines::end_of_define;
use script_lines::lines::{Line, first_line, next_line};
use script_lines::words::{are_only, is_all_shown, is_comment, words};
use session_edits::Edit;
use std::alloc::{AllocError, Global};

// The command of these words, of this line with this number; no words are none.
fn words_command<'a>(
    alloc: Global,
    number: usize,
    line: &'a [u8],
    words: &[&'a [u8]],
) -> Result<Option<Command<'a>>, AllocError>
    requires { every (every is_shown) (bytes_of words.now) ≡ true }
    ensures { IfOk result (λ found.
        maybe_said found ≡ command_of number (bytes_of words.now)) }
{
    if words.is_empty() {
        return Ok(None);
    }
    if are_only(b"run", words) {
        return Ok(Some(Command::Run));
    }
    match edit(alloc, words)? {
        None => Ok(Some(Command::Unknown(number, line))),
        Some(edit) => Ok(Some(Command::Change(edit))),
    }
}

/// The command of a line of this number, by its words; a comment and a line without words have none.
pub(crate) fn line_command<'a>(
    alloc: Global,
    number: usize,
    line: &'a [u8],
    words: &[&'a [u8]],
) -> Result<Option<Command<'a>>, AllocError>
    requires { bytes_of words.now ≡ words_of line.now }
    ensures { IfOk result (λ found. maybe_said found ≡ command_in number line.now) }
{
    if is_comment(line) {
        return Ok(None);
    }
    if !is_all_shown(line) {
        return Ok(Some(Command::Unknown(number, line)));
    }
    words_command(alloc, number, line, words)
}

// The define that begins at this line, and the line behind it. Without an `end` its line is no command,
// and the script ends.
fn define_at<'a>(
    alloc: Global,
    script: &'a [u8],
    line: Line,
) -> Result<(Command<'a>, Option<Line>), AllocError>
    requires line { IsLine script.now line }
    requires define { are_only (codes "define") (words_of (text_of script.now line)) ≡ true }
    ensures line { IfOk result (λ found. IfSome found.1 (IsLine script.now)) }
    ensures further { IfOk result (λ found. IfSome found.1 (λ next. line.begin < next.begin)) }
    ensures found { IfOk result (λ found.
        commands_at script.now (Some line) ≡ said found.0 ∷ commands_at script.now found.1) }
{
    let begun = &script[line.begin..line.end];
    let Some(first) = next_line(script, line) else {
        return Ok((Command::Unknown(line.number, begun), None));
    };
    match end_of_define(alloc, script, first)? {
        None => Ok((Command::Unknown(line.number, begun), None)),
        Some(end) => {
            let text = &script[first.begin..end.begin];
            Ok((Command::Change(Edit::Define(text)), next_line(script, end)))
        }
    }
}

// The command that begins at this line, if there is one, and the line behind it.
fn command_at<'a>(
    alloc: Global,
    script: &'a [u8],
    line: Line,
) -> Result<(Option<Command<'a>>, Option<Line>), AllocError>
    requires { IsLine script.now line }
    ensures line { IfOk result (λ found. IfSome found.1 (IsLine script.now)) }
    ensures further { IfOk result (λ found. IfSome found.1 (λ next. line.begin < next.begin)) }
    ensures found { IfOk result (λ found. commands_at script.now (Some line)
        ≡ option_to_list (maybe_said found.0) ++ commands_at script.now found.1) }
{
    let text = &script[line.begin..line.end];
    let words = words(alloc, text)?;
    if are_only(b"define", &words) {
        let (command, next) = define_at(alloc, script, line)?;
        return Ok((Some(command), next));
    }
    let command = line_command(alloc, line.number, text, &words)?;
    Ok((command, next_line(script, line)))
}

// Puts a command at the end, if there is one.
fn push_some<'a>(
    found: &mut Vec<Command<'a>>,
    command: Option<Command<'a>>,
) -> Result<(), AllocError>
    ensures { OnOk result (map said found.new.items
        ≡ map said found.old.items ++ option_to_list (maybe_said command.entry)) }
{
    match command {
        None => Ok(()),
        Some(command) => Ok(found.push(command)?),
    }
}

/// The commands of a script, in order. Want of memory is the only error.
pub fn commands<'a>(alloc: Global, script: &'a [u8]) -> Result<Vec<Command<'a>>, AllocError>
    ensures { IfOk result (λ found. map said found.items ≡ commands_of script.now) }
{
    let mut found = Vec::new(alloc);
    let mut next = Some(first_line(script));
    while let Some(line) = next {
        let (command, behind) = command_at(alloc, script, line)?;
        push_some(&mut found, command)?;
        next = behind;
    }
    Ok(found)
}
