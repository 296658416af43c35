// The texts that a line asks for: the program of a file in its normal form, help and the version.
ghost use Rattle.std.specs.Prelude.{◌≡◌, Err, true, IfErr, OnOk};
ghost use Rattle.std.specs.Io.KnownBytes.{Appends, Keeps};
ghost use Rattle.program_endings.specs.Endings.{IsWriterError};
ghost use Rattle.program_endings.specs.Written.{HasBeginning};
ghost use Rattle.cli.specs.Formatted.{IsFormattedOver, IsBegunOver, IsUnformatted, IsFormatError, IsEarly, IsRefusal};

use command_line::options::OptionsError;
use prepared_program::prepare::PrepareError;
use printing_theory::normal_form;
use procedure_parser::TextError;
use program_endings::failing::{failed, no_memory};
use program_endings::program_error::ProgramError;
use program_endings::session_error::SessionError;
use program_endings::streams::{Failures, flush, write_whole};
use report_files::files::FileSource;
use std::alloc::Global;
use std::fmt::Write as _;
use std::io;
use std::io::{BufWriter, Write};
use std::rt::Runtime;

/// Writes the program of the file at a path in its normal form to standard output.
pub fn format_file<F: FileSource>(
    rt: &(impl Runtime + AllocGlobal),
    alloc: Global,
    path: &str,
    files: &F,
) -> Result<(), ProgramError>
    ensures refused { IfErr result IsFormatError }
{
    let Ok(mut writer) = BufWriter::new(alloc, io::writer(rt)) else {
        return Err(no_memory());
    };
    format_to(alloc, path, files, &mut writer, &mut Failures::none())
}

/// Writes the program of the file at a path in its normal form. Where the file fails or is refused nothing is written; that
/// the writer failed is noted.
pub fn format_to<F: FileSource, W: Write>(
    alloc: Global,
    path: &str,
    files: &F,
    writer: &mut W,
    failures: &mut Failures,
) -> Result<(), ProgramError>
    ensures formatted { OnOk result (IsFormattedOver (F.held files.now) path.now
        (W.contents writer.old) (W.contents writer.new)) }
    ensures beginning { IsBegunOver (F.held files.now) path.now
        (W.contents writer.old) (W.contents writer.new) }
    ensures refused { IfErr result (IsUnformatted (F.held files.now) path.now) }
    ensures error { IfErr result IsFormatError }
    ensures unwritten { IfErr result (λ e. IsEarly e
        → Keeps (W.contents writer.old) (W.contents writer.new)) }
    ensures output { result ≡ Err (ProgramError.Session SessionError.Write)
        → failures.new.output ≡ true }
{
    let program = match files.read(alloc, path) {
        Ok(program) => program,
        Err(error) => return Err(failed(alloc, path, &error)),
    };
    let text = match normal_form(alloc, program.as_slice()) {
        Ok(text) => text,
        Err(error) => return Err(refusal(error)),
    };
    match send(writer, text.as_slice(), failures) {
        Ok(()) => Ok(()),
        Err(error) => Err(ProgramError::Session(error)),
    }
}

/// Writes the text that a line asks for, and an end of line, to standard output.
pub fn show_text(
    rt: &(impl Runtime + AllocGlobal),
    alloc: Global,
    asked: &OptionsError,
) -> Result<(), ProgramError>
    ensures refused { IfErr result IsFormatError }
{
    let mut text = String::new(alloc);
    if write!(text, "{asked}\n").is_err() {
        return Err(no_memory());
    }
    match send(&mut io::writer(rt), text.as_bytes(), &mut Failures::none()) {
        Ok(()) => Ok(()),
        Err(error) => Err(ProgramError::Session(error)),
    }
}

// Writes the bytes and flushes the writer; refused where it fails, which is noted, or for want of memory, and then a beginning
// of them is written.
fn send<W: Write>(writer: &mut W, bytes: &[u8], failures: &mut Failures) -> Result<(), SessionError>
    ensures written { OnOk result
        (Appends (W.contents writer.old) (W.contents writer.new) bytes.now) }
    ensures beginning { HasBeginning (W.contents writer.old) (W.contents writer.new) bytes.now }
    ensures refused { IfErr result IsWriterError }
    ensures noted { result ≡ Err SessionError.Write → failures.new.output ≡ true }
{
    match write_whole(writer, bytes, failures) {
        Ok(()) => flush(writer, failures),
        Err(error) => Err(error),
    }
}

// What the refusal of a program's text is to the program.
fn refusal(error: TextError) -> ProgramError
    ensures { IsRefusal error result }
{
    match error {
        TextError::NoMemory => no_memory(),
        TextError::Text { line } => ProgramError::Prepare(PrepareError::Text { line }),
    }
}
