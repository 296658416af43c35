//! What lines of traces and of counts have in them.
ghost use Rattle.std.specs.Prelude.{◌≡◌, ◌+◌, ◌<◌, ◌++◌, OnOk, flat_map, length, string_bytes};
ghost use Rattle.plain_rules.specs.TraceLines.{dotted, place_text, places_text, executed_text};

use std::alloc::AllocError;
use std::fmt::Write;

// Puts the numbers of a place behind the first at the end of the text.
fn push_dotted(text: &mut String, numbers: &[usize]) -> Result<(), AllocError>
    ensures { OnOk result (string_bytes text.new ≡ string_bytes text.old ++ flat_map dotted numbers.now) }
{
    for number in numbers {
        write!(text, ".{number}")?;
    }
    Ok(())
}

/// Puts a place at the end of the text. Want of memory is the only error, as of all that follows.
pub fn push_place(text: &mut String, place: &[usize]) -> Result<(), AllocError>
    ensures { OnOk result (string_bytes text.new ≡ string_bytes text.old ++ place_text place.now) }
{
    match place {
        [] => write!(text, "root"),
        [first, rest @ ..] => {
            write!(text, "{first}")?;
            push_dotted(text, rest)
        }
    }
}

/// Puts what a worker did with two places at the end of the text.
pub fn push_places(
    text: &mut String,
    word: &str,
    left: &[usize],
    right: &[usize],
    worker: usize,
) -> Result<(), AllocError>
    ensures { OnOk result (string_bytes text.new ≡ string_bytes text.old ++ places_text word.now left.now right.now worker) }
{
    write!(text, "{word} ")?;
    push_place(text, left)?;
    write!(text, " ")?;
    push_place(text, right)?;
    writeln!(text, " by {worker}")
}

/// Puts how many instances were executed, how many a record answered, and how many went without one at the end of the text.
pub fn push_executed(
    text: &mut String,
    executed: usize,
    reused: usize,
    unrecorded: usize,
) -> Result<(), AllocError>
    ensures { OnOk result (string_bytes text.new ≡ string_bytes text.old ++ executed_text executed reused unrecorded) }
{
    write!(
        text,
        " executed {executed} reused {reused} unrecorded {unrecorded}"
    )
}

/// The place behind that of a value that was written.
pub fn place_behind<T>(values: &[T], at: usize) -> usize
    requires { at < length values.now }
    ensures { result ≡ at + 1 }
{
    let _ = values;
    at + 1
}
