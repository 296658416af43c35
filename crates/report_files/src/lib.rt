//! The files of a report: what is read of them, and which of them no trace takes the place of.
#![tactic(auto)]

pub mod files;

use crate::files::{FileSource, SystemFiles};
use std::alloc::Global;
use std::fs::Files;
use std::io::{ErrorKind, Read};
use std::os::unix::fs::MetadataExt;
use std::rt::Runtime;
use std::{fs, io};
use token_scanner::LONGEST_TEXT;

/// The files of a report, by the paths of its program and of its tables: those of the system. Of the program's no more is read than one
/// byte behind the longest text, since a longer one is refused whatever it holds; and none of them is emptied, nor the script's.
#[derive(Clone, Copy)]
pub struct ReportFiles<'a, S> {
    pub rt: &'a S,
    pub program: &'a str,
    pub tables: &'a str,
}

impl<'a, S: Runtime + AllocGlobal> FileSource for ReportFiles<'a, S> {
    type Made = S::File;

    fn read(&self, alloc: Global, path: &str) -> io::Result<Vec<u8>> {
        if path != self.program {
            return SystemFiles { rt: self.rt }.read(alloc, path);
        }
        let mut bytes = Vec::new(alloc);
        let mut file = fs::open(self.rt, path)?.take(LONGEST_TEXT as u64 + 1);
        file.read_to_end(&mut bytes)?;
        Ok(bytes)
    }

    fn make(&self, path: &str) -> io::Result<S::File> {
        if is_spared(self.rt, path, self.program, self.tables) {
            return Err(io::Error::from(ErrorKind::AlreadyExists));
        }
        SystemFiles { rt: self.rt }.make(path)
    }
}

// The script is read once the trace's file is made. This is what the system calls standard input: a file only where the script is one.
const SCRIPT: &str = "/dev/stdin";

/// Whether a path is that of the program's file, of the tables' or of the script's, which are read: to make a file there would empty it.
pub fn is_spared(files: &impl Files, path: &str, program: &str, tables: &str) -> bool {
    is_one_file(files, path, program)
        || is_one_file(files, path, tables)
        || is_one_file(files, path, SCRIPT)
}

// Whether two paths are those of one file that keeps what is written to it.
fn is_one_file(files: &impl Files, one: &str, other: &str) -> bool {
    match (fs::metadata(files, one), fs::metadata(files, other)) {
        (Ok(one), Ok(other)) => one.is_file()
            && one.dev() == other.dev()
            && one.ino() == other.ino(),
        _ => false,
    }
}
