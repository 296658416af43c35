// A script that comes line by line.
ghost use Rattle.std.specs.Prelude.{◌≡◌, ◌+◌, ◌<◌, ◌^◌, ◌++◌, ◌∷◌, [], All, List, ℕ, None, false, IfOk, OnOk};
ghost use Rattle.meaning.specs.Script.{commands as commands_of, is_line_end, lines as lines_of};
ghost use Rattle.script_reader.specs.Beginnings.{command_by, command_ended, command_left, commands_left, define_left, nothing_come};
ghost use Rattle.script_reader.specs.Beginnings.{whole_commands, with_line, with_lines};
ghost use Rattle.script_reader.specs.Said.{begun_of, maybe_said, said_found};

use crate::command::Command;
use crate::script::line_command;
use script_lines::words::{are_only, words};
use std::alloc::{AllocError, Global};
use std::marker::Model;

// A define that has no `end` yet: the number of its line, that line, and its text so far.
#[derive(Drop)]
struct Begun {
    number: usize,
    line: Vec<u8>,
    text: Vec<u8>,
}

/// What a line brings: nothing yet, the command that it is, or the define that it ends, by its text.
#[derive(Drop)]
pub enum Found<'a> {
    Nothing,
    Command(Command<'a>),
    Define(Vec<u8>),
}

/// A script of which some lines have come. Of these it keeps the define that has no `end` yet, and how many there were.
#[derive(Drop)]
pub struct OpenScript {
    alloc: Global,
    passed: usize,
    begun: Option<Begun>,
}

impl Model for OpenScript {
    ghost use Rattle.script_reader.specs.Beginnings.{PlainOpen};
    ghost use Rattle.script_reader.specs.Said.{begun_of};

    ghost Value = { PlainOpen };

    ghost view = { λ s. record { passed = s.passed; define = begun_of s.begun } };
}

impl OpenScript {
    /// A script of which nothing has come.
    pub fn new(alloc: Global) -> OpenScript
        ensures { result ≡ nothing_come }
    {
        OpenScript {
            alloc,
            passed: 0,
            begun: None,
        }
    }

    /// Takes the next line, without its end, and gives what it brings. Want of memory is the only error, and the script is lost
    /// then.
    pub fn take_line<'a>(&mut self, line: &'a [u8]) -> Result<Found<'a>, AllocError>
        requires room { self.old.passed + 1 < 2 ^ 64 }
        ensures found { IfOk result (λ found. said_found found ≡ command_by self.old line.now) }
        ensures taken { OnOk result (self.new ≡ with_line self.old line.now) }
    {
        let number = self.passed + 1;
        let begun = self.begun.take();
        let (begun, found) = with_next(self.alloc, begun, number, line)?;
        self.passed = number;
        self.begun = begun;
        Ok(found)
    }

    /// The command that is left where no line comes any more: the line of a define without an `end`, which is none.
    pub fn rest(&self) -> Option<Command<'_>>
        ensures { maybe_said result ≡ command_left self.now }
    {
        match &self.begun {
            None => None,
            Some(begun) => Some(Command::Unknown(begun.number, begun.line.as_slice())),
        }
    }
}

// What a line of this number brings, and the define that has no `end` behind it.
fn with_next<'a>(
    alloc: Global,
    begun: Option<Begun>,
    number: usize,
    line: &'a [u8],
) -> Result<(Option<Begun>, Found<'a>), AllocError>
    ensures found { IfOk result (λ next.
        said_found next.1 ≡ command_ended (begun_of begun) number line.now) }
    ensures left { IfOk result (λ next.
        begun_of next.0 ≡ define_left (begun_of begun) number line.now) }
{
    match begun {
        None => outside(alloc, number, line),
        Some(begun) => inside(alloc, begun, line),
    }
}

// The command of a line outside a define.
fn outside<'a>(
    alloc: Global,
    number: usize,
    line: &'a [u8],
) -> Result<(Option<Begun>, Found<'a>), AllocError>
    ensures found { IfOk result (λ next.
        said_found next.1 ≡ command_ended None number line.now) }
    ensures left { IfOk result (λ next. begun_of next.0 ≡ define_left None number line.now) }
{
    let words = words(alloc, line)?;
    if are_only(b"define", &words) {
        let begun = Begun {
            number,
            line: Vec::from_slice(alloc, line)?,
            text: Vec::new(alloc),
        };
        return Ok((Some(begun), Found::Nothing));
    }
    match line_command(alloc, number, line, &words)? {
        None => Ok((None, Found::Nothing)),
        Some(command) => Ok((None, Found::Command(command))),
    }
}

// What a line in a define adds to it, or the command where it ends one.
fn inside<'a>(
    alloc: Global,
    begun: Begun,
    line: &[u8],
) -> Result<(Option<Begun>, Found<'a>), AllocError>
    ensures found { IfOk result (λ next.
        said_found next.1 ≡ command_ended (begun_of (Some begun)) 0 line.now) }
    ensures left { IfOk result (λ next.
        begun_of next.0 ≡ define_left (begun_of (Some begun)) 0 line.now) }
{
    let words = words(alloc, line)?;
    let Begun {
        number,
        line: first,
        mut text,
    } = begun;
    if are_only(b"end", &words) {
        return Ok((None, Found::Define(text)));
    }
    text.extend_from_slice(line)?;
    text.push(b'\n')?;
    let begun = Begun {
        number,
        line: first,
        text,
    };
    Ok((Some(begun), Found::Nothing))
}

/// How the commands of a script follow from those of its beginnings: those that are whole in its first lines, and behind them those
/// that the further lines end; a line without its end adds none to those that are whole.
pub fn laws_of_beginnings()
    ensures left { (text rest : List ℕ) → commands_of (text ++ 10 ∷ rest)
        ≡ whole_commands (text ++ 10 ∷ [])
        ++ commands_left (with_lines nothing_come (lines_of text)) (lines_of rest) }
    ensures part { (text part : List ℕ) → All (λ b. is_line_end b ≡ false) part
        → whole_commands (text ++ 10 ∷ part) ≡ whole_commands (text ++ 10 ∷ []) }
{}
