// Why a file failed, as far as the system tells when it is asked once more.
use command_line::options::Options;
use report_files::is_spared;
use std::alloc::AllocError;
use std::fmt::Write;
use std::fs::{Files, OpenOptions};
use std::io::ErrorKind;
use std::{fs, io};

/// Puts why the file at a path failed, which is one that the options name, at the end of the text; nothing where the system doesn't say.
/// Want of memory is the only error.
pub(crate) fn push_failed(
    text: &mut String,
    files: &impl Files,
    path: &str,
    options: Options<'_>,
) -> Result<(), AllocError> {
    if options.trace == Some(path) && is_spared(files, path, options.program, options.tables) {
        return push_cause_line(
            text,
            "It is the file of the program, of the tables or of the script, which a trace would take the place of.",
        );
    }
    if path == options.program {
        return push_unread(text, files, path, "A read of it failed.");
    }
    if path == options.tables {
        return push_unread(
            text,
            files,
            path,
            "It is no text: tables are written in UTF-8.",
        );
    }
    push_unmade(text, files, path)
}

/// Puts why a program's file can't be read. Want of memory is the only error.
pub(crate) fn push_failed_program(
    text: &mut String,
    files: &impl Files,
    path: &str,
) -> Result<(), AllocError> {
    push_unread(text, files, path, "A read of it failed.")
}

// Puts why a file can't be read: what is said otherwise where it can be opened. What is no file isn't opened, since that might wait.
fn push_unread(
    text: &mut String,
    files: &impl Files,
    path: &str,
    otherwise: &str,
) -> Result<(), AllocError> {
    match fs::metadata(files, path) {
        Err(error) => push_cause(text, &error, "There is no such file."),
        Ok(found) if found.is_dir() => push_cause_line(text, FOLDER),
        Ok(found) if found.is_file() => match fs::open(files, path) {
            Err(error) => push_cause(text, &error, "There is no such file."),
            Ok(_) => push_cause_line(text, otherwise),
        },
        Ok(_) => push_cause_line(text, otherwise),
    }
}

const FOLDER: &str = "It is a folder.";

// Puts why a trace's file can't be made. It isn't emptied where it can.
fn push_unmade(text: &mut String, files: &impl Files, path: &str) -> Result<(), AllocError> {
    match fs::metadata(files, path) {
        Err(error) => push_cause(
            text,
            &error,
            "There is no folder to make it in, or it can't be made there.",
        ),
        Ok(found) if found.is_dir() => push_cause_line(text, FOLDER),
        Ok(found) if found.is_file() => match OpenOptions::new().write(true).open(files, path) {
            Err(error) => push_cause(text, &error, "There is no such file."),
            Ok(_) => Ok(()),
        },
        Ok(_) => Ok(()),
    }
}

// Puts what such an error of the system is in plain words.
fn push_cause(text: &mut String, error: &io::Error, absent: &str) -> Result<(), AllocError> {
    match error.kind() {
        ErrorKind::NotFound => push_cause_line(text, absent),
        ErrorKind::PermissionDenied => push_cause_line(
            text,
            "Permission is denied: `ls -l` says who may do what with it.",
        ),
        ErrorKind::IsADirectory => push_cause_line(text, FOLDER),
        ErrorKind::NotADirectory => push_cause_line(text, "A part of its path is no folder."),
        _ => write!(text, "  {error}\n"),
    }
}

fn push_cause_line(text: &mut String, words: &str) -> Result<(), AllocError> {
    write!(text, "  {words}\n")
}
