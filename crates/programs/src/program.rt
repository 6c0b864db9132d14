// A program as it runs: its start, what it writes, and what it says of a failure.
use crate::{Failed, Options, Status};
use arrayvec::{ArrayString, ArrayVec};
use std::fmt::{Display, Write as _};
use std::io::{Error, Write as _};

// Room for a name of PATH_MAX bytes and the words around it.
const LINE: usize = 4352;

// Room for an error's text.
const TEXT: usize = 256;

// What holds of all programs, for their help.
const MANNERS: &[u8] = b"  -h   prints this

A file that can't be opened or read ends the input there, and is named on standard
error; what comes before it is read whole. A rest below a record's size at the end
of the input is one record. A file whose name begins with - is named as ./-NAME.

The status is 0, 1 if not all could be read or written, 2 for an unknown option.
";

// The system, and the program's name, with which all that it says begins: bytes, as names of files are.
#[derive(Clone, Copy)]
pub struct Program<'a> {
    pub rt: &'a HostRuntime,
    pub name: &'a [u8],
}

// The system's own words for an error, without the number that std sets behind them.
fn words(text: &str) -> &str {
    match text.rsplit_once(" (os error ") {
        Some((words, _)) => words,
        None => text,
    }
}

impl Program<'_> {
    // The options; or the status to end with, where there is nothing to do beyond what was said. Each option that isn't known is named
    // on standard error, and `-h` prints the help.
    pub fn begin<const N: usize>(
        &self,
        letters: &[u8; N],
        help: &[u8],
    ) -> Result<Options<N>, Status> {
        let options = Options::read(self, letters);
        if options.wrong {
            return Err(Status::WrongUse);
        }
        if options.help {
            self.write(help)?;
            self.write(MANNERS)?;
            return Err(Status::Done);
        }
        Ok(options)
    }

    // Standard output takes all of it, or it is said that it doesn't, and why.
    pub fn print<D: Display + Drop>(&self, text: D) -> Result<(), Failed> {
        let printed = self.rt.print(text);
        printed.map_err(|error| self.unwritten(error))
    }

    // The same of bytes, which have no `Display`.
    pub fn write(&self, bytes: &[u8]) -> Result<(), Failed> {
        let written = self.rt.write_all(bytes);
        written.map_err(|error| self.unwritten(error))
    }

    fn unwritten(&self, error: Error) -> Failed {
        self.complain(b"standard output", b" could not be written", error);
        Failed
    }

    // A name, which may be no text, what happened to it, and the error's text.
    pub(crate) fn complain(&self, name: &[u8], what: &[u8], error: Error) {
        let mut text = ArrayString::<TEXT>::new();
        let _ = write!(text, "{error}");
        let why = words(text.as_str());
        self.say(&[name, what, b": ", why.as_bytes()]);
    }

    pub(crate) fn unknown(&self, option: &[u8]) {
        self.say(&[
            b"unknown option ",
            option,
            b"; ",
            self.name,
            b" -h explains",
        ]);
    }

    // A line on standard error, put together first, so that it is written at once. Where it can't be written there is nobody to tell.
    fn say(&self, parts: &[&[u8]]) {
        let mut line = ArrayVec::<u8, LINE>::new();
        let _ = line.write_all(self.name);
        let _ = line.write_all(b": ");
        for part in parts {
            let _ = line.write_all(part);
        }
        let _ = line.write_all(b"\n");
        let _ = self.rt.stderr().write_all(line.as_slice());
    }
}
