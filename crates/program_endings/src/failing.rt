// What a file that fails, and want of memory, are to the program.
ghost use Rattle.std.specs.Prelude.{◌≡◌};
ghost use Rattle.std.specs.IoError.{error_kind};
ghost use Rattle.program_endings.specs.Failing.{IsFailed};

use crate::program_error::ProgramError;
use crate::session_error::SessionError;
use std::alloc::Global;
use std::io;
use std::io::ErrorKind;

/// A file that failed with that error: its path, or want of memory.
pub fn failed(alloc: Global, path: &str, error: &io::Error) -> ProgramError
    ensures failed { IsFailed path.now result }
    ensures memory { error_kind error.now ≡ ErrorKind.OutOfMemory
        → result ≡ ProgramError.Session SessionError.NoMemory }
{
    if error.kind() == ErrorKind::OutOfMemory {
        return no_memory();
    }
    failed_file(alloc, path)
}

/// A file that failed, by its path; or want of memory.
pub fn failed_file(alloc: Global, path: &str) -> ProgramError
    ensures failed { IsFailed path.now result }
{
    match String::from_str(alloc, path) {
        Ok(path) => ProgramError::File(path),
        Err(_) => no_memory(),
    }
}

/// Memory was refused.
pub fn no_memory() -> ProgramError
    ensures memory { result ≡ ProgramError.Session SessionError.NoMemory }
{
    ProgramError::Session(SessionError::NoMemory)
}
