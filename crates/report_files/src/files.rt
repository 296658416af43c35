// Files by their paths, and standard error: those of the system, or others in their place.
ghost use Rattle.std.specs.Prelude.{◌≡◌, ℕ, List, Option, None, IfOk, IfErr, IfSome, IsSome};
ghost use Rattle.std.specs.IoError.{error_kind};

use std::alloc::Global;
use std::io::{Eprint, ErrorKind, Write};
use std::rt::Runtime;
use std::{fs, io};

/// Where files are read and made.
pub trait FileSource {
    /// A file that was made.
    type Made: Write + Drop;

    // The bytes of the file at a path, where they are known.
    ghost held: { Self → List ℕ → Option (List ℕ) } = { λ _ _. None };

    /// All bytes of the file at that path; a file whose bytes are known fails for want of memory alone.
    fn read(&self, alloc: Global, path: &str) -> io::Result<Vec<u8>>
        ensures bytes { IfOk result (λ bytes.
            IfSome (held self.now path.now) (λ known. bytes.items ≡ known)) }
        ensures fails { IsSome (held self.now path.now)
            → IfErr result (λ e. error_kind e ≡ ErrorKind.OutOfMemory) };

    /// Makes the file at that path, or empties the one that is there.
    fn make(&self, path: &str) -> io::Result<Self::Made>;
}

/// The files of the system, whose bytes no contract knows.
#[derive(Clone, Copy)]
pub struct SystemFiles<'a, S> {
    pub rt: &'a S,
}

impl<'a, S: Runtime + AllocGlobal> FileSource for SystemFiles<'a, S> {
    type Made = S::File;

    fn read(&self, _alloc: Global, path: &str) -> io::Result<Vec<u8>> {
        fs::read(self.rt, path)
    }

    fn make(&self, path: &str) -> io::Result<S::File> {
        fs::create(self.rt, path)
    }
}

/// Standard error, as a writer of text.
#[derive(Clone, Copy)]
pub struct StandardError<'a, S> {
    pub rt: &'a S,
}

impl<'a, S: Eprint> Write for StandardError<'a, S> {
    fn write(&mut self, buf: &[u8]) -> io::Result<usize> {
        let Ok(text) = str::from_utf8(buf) else {
            return Err(io::Error::from(ErrorKind::InvalidData));
        };
        self.rt.eprint(text)?;
        Ok(buf.len())
    }

    fn flush(&mut self) -> io::Result<()> {
        Ok(())
    }
}
