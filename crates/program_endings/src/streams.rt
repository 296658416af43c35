// Reading a stream to its end or line by line, and writing to one.
ghost use Rattle.std.specs.Prelude.{◌≡◌, ◌≢◌, ◌<◌, ◌≤◌, ◌++◌, ◌∷◌, [], All, Err, false, true, length, take, IfOk, IfErr, OnOk, OnErr, IfSome, IfNone};
ghost use Rattle.std.specs.Io.KnownBytes.{Appends, Keeps, Consumes, IsAtEnd};
ghost use Rattle.std.specs.IoError.{error_kind};
ghost use Rattle.program_endings.specs.Endings.{IsReaderError, IsWriterError};
ghost use Rattle.program_endings.specs.Written.{HasBeginning, IsNoEnd};

use crate::session_error::SessionError;
use std::alloc::Global;
use std::io;
use std::io::{ErrorKind, Read, Write};
use std::marker::Model;

/// Which streams failed: the reader, where a read of it answered an error or no end came of 2^64 - 1 reads; the writer,
/// where a write or a flush answered an error, a write took nothing, or 2^64 - 1 writes or flushes were not enough. An
/// interrupted call is made again and is no failure; want of memory is none either. Nothing else sets these marks.
#[derive(Drop)]
pub struct Failures {
    input: bool,
    output: bool,
}

impl Model for Failures {
    ghost use Rattle.program_endings.specs.Failed.{Failed};

    ghost Value = { Failed };

    ghost view = { λ f. record { input = f.input; output = f.output } };
}

impl Failures {
    /// No stream failed.
    pub fn none() -> Failures
        ensures none { result ≡ record { input = false; output = false } }
    {
        Failures {
            input: false,
            output: false,
        }
    }

    /// Whether the reader failed, and whether the writer did.
    pub fn noted(&self) -> (bool, bool)
        ensures input { result.0 ≡ self.now.input }
        ensures output { result.1 ≡ self.now.output }
    {
        (self.input, self.output)
    }

    /// Notes that the reader failed, for who has read 2^64 - 1 times and seen no end.
    pub fn of_input(&mut self) -> SessionError
        ensures error { result ≡ SessionError.Read }
        ensures noted { self.new.input ≡ true }
        ensures others { self.new.output ≡ self.old.output }
    {
        self.input = true;
        SessionError::Read
    }

    // Notes that the writer failed.
    fn of_output(&mut self) -> SessionError
        ensures error { result ≡ SessionError.Write }
        ensures noted { self.new.output ≡ true }
        ensures others { self.new.input ≡ self.old.input }
    {
        self.output = true;
        SessionError::Write
    }

    // One read: how many bytes were read; none where it was interrupted.
    fn read<R: Read>(
        &mut self,
        reader: &mut R,
        buffer: &mut [u8],
    ) -> Result<Option<usize>, SessionError>
        ensures bound { IfOk result (λ read. IfSome read (λ n. n ≤ length buffer.new)) }
        ensures taken { IfOk result (λ read. IfSome read (λ n.
            Consumes (R.remaining reader.old) (R.remaining reader.new) (take n buffer.new))) }
        ensures over { IfOk result (λ read. IfSome read (λ n.
            n ≡ 0 → 0 < length buffer.new → IsAtEnd (R.remaining reader.new))) }
        ensures interrupted { IfOk result (λ read.
            IfNone read (Keeps (R.remaining reader.old) (R.remaining reader.new))) }
        ensures grows { OnErr result (Keeps (R.remaining reader.old) (R.remaining reader.new)) }
        ensures refused { IfErr result IsReaderError }
        ensures noted { result ≡ Err SessionError.Read → self.new.input ≡ true }
        ensures unmarked { result ≢ Err SessionError.Read → self.new ≡ self.old }
        ensures others { self.new.output ≡ self.old.output }
    {
        match reader.read(buffer) {
            Ok(count) => Ok(Some(count)),
            Err(error) if error.kind() == ErrorKind::Interrupted => Ok(None),
            Err(error) if error.kind() == ErrorKind::OutOfMemory => Err(SessionError::NoMemory),
            Err(_) => Err(self.of_input()),
        }
    }

    // One write: how many of the bytes were taken; 0 where it was interrupted.
    fn write<W: Write>(&mut self, writer: &mut W, bytes: &[u8]) -> Result<usize, SessionError>
        ensures bound { IfOk result (λ n. n ≤ length bytes.now) }
        ensures written { IfOk result (λ n.
            Appends (W.contents writer.old) (W.contents writer.new) (take n bytes.now)) }
        ensures grows { OnErr result (Keeps (W.contents writer.old) (W.contents writer.new)) }
        ensures refused { IfErr result IsWriterError }
        ensures noted { result ≡ Err SessionError.Write → self.new.output ≡ true }
        ensures unmarked { result ≢ Err SessionError.Write → self.new ≡ self.old }
        ensures others { self.new.input ≡ self.old.input }
    {
        match writer.write(bytes) {
            Ok(0) => Err(self.of_output()),
            Ok(count) => Ok(count),
            Err(error) if error.kind() == ErrorKind::Interrupted => Ok(0),
            Err(error) => Err(self.of_writer(&error)),
        }
    }

    // One flush: whether it was done; not where it was interrupted.
    fn flush<W: Write>(&mut self, writer: &mut W) -> Result<bool, SessionError>
        ensures grows { Keeps (W.contents writer.old) (W.contents writer.new) }
        ensures refused { IfErr result IsWriterError }
        ensures noted { result ≡ Err SessionError.Write → self.new.output ≡ true }
        ensures unmarked { result ≢ Err SessionError.Write → self.new ≡ self.old }
        ensures others { self.new.input ≡ self.old.input }
    {
        match writer.flush() {
            Ok(()) => Ok(true),
            Err(error) if error.kind() == ErrorKind::Interrupted => Ok(false),
            Err(error) => Err(self.of_writer(&error)),
        }
    }

    // What that error of the writer ends a session by: a failure, which is noted, or want of memory.
    fn of_writer(&mut self, error: &io::Error) -> SessionError
        ensures memory { error_kind error.now ≡ ErrorKind.OutOfMemory
            → result ≡ SessionError.NoMemory }
        ensures failed { error_kind error.now ≢ ErrorKind.OutOfMemory
            → result ≡ SessionError.Write }
        ensures error { IsWriterError result }
        ensures noted { result ≡ SessionError.Write → self.new.output ≡ true }
        ensures unmarked { result ≢ SessionError.Write → self.new ≡ self.old }
        ensures others { self.new.input ≡ self.old.input }
    {
        if error.kind() == ErrorKind::OutOfMemory {
            return SessionError::NoMemory;
        }
        self.of_output()
    }
}

/// All that a reader has left; refused where a read fails, which is noted, or memory is wanted.
pub fn read_all<R: Read>(
    alloc: Global,
    reader: &mut R,
    failures: &mut Failures,
) -> Result<Vec<u8>, SessionError>
    ensures known { IfOk result (λ script.
        IfSome (R.remaining reader.old) (λ bytes. script.items ≡ bytes)) }
    ensures taken { IfOk result (λ script.
        Consumes (R.remaining reader.old) (R.remaining reader.new) script.items) }
    ensures over { OnOk result (IsAtEnd (R.remaining reader.new)) }
    ensures refused { IfErr result IsReaderError }
    ensures noted { result ≡ Err SessionError.Read → failures.new.input ≡ true }
    ensures unmarked { result ≢ Err SessionError.Read → failures.new ≡ failures.old }
    ensures others { failures.new.output ≡ failures.old.output }
{
    let mut script = Vec::new(alloc);
    let mut chunk = [0; 4096];
    for _ in 0..u64::MAX {
        match failures.read(reader, &mut chunk)? {
            None => {}
            Some(0) => return Ok(script),
            Some(count) => script.extend_from_slice(&chunk[..count])?,
        }
    }
    Err(failures.of_input())
}

/// Puts the next line of a reader in the place of what is in the buffer, without its end, and says whether it has one: the last
/// line has none. Not a byte behind its end is read. Refused as by `read_all`; where a read fails, the buffer has what was read of
/// the line.
pub fn read_line<R: Read>(
    reader: &mut R,
    line: &mut Vec<u8>,
    failures: &mut Failures,
) -> Result<bool, SessionError>
    ensures ended { IfOk result (λ ended. ended ≡ true → Consumes (R.remaining reader.old)
        (R.remaining reader.new) (line.new.items ++ 10 ∷ [])) }
    ensures last { IfOk result (λ ended. ended ≡ false
        → Consumes (R.remaining reader.old) (R.remaining reader.new) line.new.items) }
    ensures over { IfOk result (λ ended. ended ≡ false → IsAtEnd (R.remaining reader.new)) }
    ensures failed { result ≡ Err SessionError.Read
        → Consumes (R.remaining reader.old) (R.remaining reader.new) line.new.items }
    ensures one { All IsNoEnd line.new.items }
    ensures refused { IfErr result IsReaderError }
    ensures noted { result ≡ Err SessionError.Read → failures.new.input ≡ true }
    ensures unmarked { result ≢ Err SessionError.Read → failures.new ≡ failures.old }
    ensures others { failures.new.output ≡ failures.old.output }
{
    line.clear();
    let mut byte = [0];
    for _ in 0..u64::MAX {
        match failures.read(reader, &mut byte)? {
            None => {}
            Some(0) => return Ok(false),
            Some(_) if byte[0] == b'\n' => return Ok(true),
            Some(_) => {
                if line.push(byte[0]).is_err() {
                    return Err(SessionError::NoMemory);
                }
            }
        }
    }
    Err(failures.of_input())
}

/// Writes the bytes; refused where a write fails, which is noted, or memory is wanted, and then a beginning of them is
/// written.
pub fn write_whole<W: Write>(
    writer: &mut W,
    bytes: &[u8],
    failures: &mut Failures,
) -> Result<(), SessionError>
    ensures written { OnOk result
        (Appends (W.contents writer.old) (W.contents writer.new) bytes.now) }
    ensures beginning { HasBeginning (W.contents writer.old) (W.contents writer.new) bytes.now }
    ensures refused { IfErr result IsWriterError }
    ensures noted { result ≡ Err SessionError.Write → failures.new.output ≡ true }
    ensures unmarked { result ≢ Err SessionError.Write → failures.new ≡ failures.old }
    ensures others { failures.new.input ≡ failures.old.input }
{
    let mut at = 0;
    for _ in 0..u64::MAX {
        if at >= bytes.len() {
            return Ok(());
        }
        at += failures.write(writer, &bytes[at..])?;
    }
    Err(failures.of_output())
}

/// Flushes a writer; refused where a flush fails, which is noted, or memory is wanted.
pub fn flush<W: Write>(writer: &mut W, failures: &mut Failures) -> Result<(), SessionError>
    ensures grows { Keeps (W.contents writer.old) (W.contents writer.new) }
    ensures refused { IfErr result IsWriterError }
    ensures noted { result ≡ Err SessionError.Write → failures.new.output ≡ true }
    ensures unmarked { result ≢ Err SessionError.Write → failures.new ≡ failures.old }
    ensures stays { failures.old.output ≡ true → failures.new.output ≡ true }
    ensures others { failures.new.input ≡ failures.old.input }
{
    for _ in 0..u64::MAX {
        if failures.flush(writer)? {
            return Ok(());
        }
    }
    Err(failures.of_output())
}
