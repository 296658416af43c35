// A reader that asks for what it reads.
use std::io;
use std::io::{Read, Write};

const PROMPT: &[u8] = b"> ";

const TO_THE_END: &[u8] =
    b"Commands are read until Ctrl-D, and done then: `run`, say. With --live each is answered at once.\n";

/// A reader at a terminal or elsewhere. At a terminal a line is asked for before each read where lines are answered at once, and otherwise
/// it is said before the first read that they aren't. That nothing can be said there changes nothing.
#[derive(Drop)]
pub struct Asking<R: Read + Drop, E: Write + Drop> {
    reader: R,
    to: E,
    words: Option<&'static [u8]>,
    live: bool,
}

impl<R: Read + Drop, E: Write + Drop> Asking<R, E> {
    /// The reader, at a terminal or not, of lines that are answered at once or not.
    pub fn new(reader: R, to: E, is_terminal: bool, live: bool) -> Asking<R, E> {
        let words = match (is_terminal, live) {
            (false, _) => None,
            (true, false) => Some(TO_THE_END),
            (true, true) => Some(PROMPT),
        };
        Asking {
            reader,
            to,
            words,
            live,
        }
    }
}

impl<R: Read + Drop, E: Write + Drop> Read for Asking<R, E> {
    ghost remaining = { λ a. R.remaining a.reader };

    fn read(&mut self, buf: &mut [u8]) -> io::Result<usize> {
        let is_asked = self.words.is_some() && self.live;
        if let Some(words) = self.words {
            let _ = self.to.write(words);
        }
        if !self.live {
            self.words = None;
        }
        let read = self.reader.read(buf);
        if is_asked && matches!(&read, Ok(0)) {
            let _ = self.to.write(b"\n");
        }
        read
    }
}
