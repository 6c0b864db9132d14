// A program's input: standard input, or the files named, their bytes laid end to end.
ghost use Rattle.std.specs.Prelude.{◌≡◌, ◌≤◌, length};
ghost use Rattle.programs.specs.Input.{first_place, goes_on, all_read};

use crate::options::{WORD, is_file};
use crate::{Failed, Program};
use std::env::{Env, FillError};
use std::fs::File;
use std::io::{Error, ErrorKind, Read};
use std::{fs, io};

// The system's numbers for what is wrong with a name: too long (ENAMETOOLONG), no text (EILSEQ).
const NAME_TOO_LONG: i32 = 36;

const NO_TEXT: i32 = 84;

// Where a source stands.
#[derive(Drop)]
enum Place {
    StandardInput,
    // the file that the argument names
    File { argument: usize, file: File },
    // the next argument, which is to be looked at
    Argument(usize),
    // No byte is to come: all were read, or some could not be.
    Ended(Result<(), Failed>),
}

#[derive(Drop)]
pub struct Source<'a> {
    program: Program<'a>,
    place: Place,
}

impl<'a> Source<'a> {
    // `from_files` is a flag, as `Options::files` is: it says only at which of two places the source begins.
    pub fn new(program: Program<'a>, from_files: bool) -> Self
        ensures { result.place ≡ first_place from_files }
    {
        let place = if from_files {
            Place::Argument(1)
        } else {
            Place::StandardInput
        };
        Source { program, place }
    }

    // Is there a byte, or a file, still to come?
    #[tactic(auto, unfolding(crate::specs::Input::goes_on))]
    pub fn goes_on(&self) -> bool
        ensures { result ≡ goes_on self.now.place }
    {
        !matches!(self.place, Place::Ended(_))
    }

    // Could all be read so far?
    #[tactic(auto, unfolding(crate::specs::Input::all_read))]
    pub fn all_read(&self) -> Result<(), Failed>
        ensures { result ≡ all_read self.now.place }
    {
        match self.place {
            Place::Ended(ended) => ended,
            _ => Ok(()),
        }
    }

    // What can't be read ends the input; what came before it stays.
    fn fail(&mut self, name: &[u8], what: &[u8], error: Error) {
        self.program.complain(name, what, error);
        self.place = Place::Ended(Err(Failed));
    }

    fn fail_reading(&mut self, error: Error) {
        let what = b" could not be read, and the input ends there";
        match self.place {
            Place::File { argument, .. } => {
                let mut room = [0u8; WORD];
                let length = self.program.rt.arg(argument, &mut room).unwrap_or(0);
                self.fail(&room[..length], what, error);
            }
            _ => self.fail(b"standard input", what, error),
        }
    }

    // Opens the file that the argument names, if there is one; an option names none.
    fn open(&mut self, argument: usize) {
        let mut room = [0u8; WORD];
        match self.program.rt.arg(argument, &mut room) {
            Ok(length) if is_file(&room[..length]) => self.open_file(argument, &room[..length]),
            Ok(_) => self.place = Place::Argument(argument.wrapping_add(1)),
            Err(FillError::NotPresent) => self.place = Place::Ended(Ok(())),
            Err(FillError::TooLong) => self.fail(
                b"an argument",
                b" is too long for a name, and the input ends there",
                Error::from_raw_os_error(NAME_TOO_LONG),
            ),
        }
    }

    fn open_file(&mut self, argument: usize, name: &[u8]) {
        match open(self.program.rt, name) {
            Ok(file) => self.place = Place::File { argument, file },
            Err(error) => self.fail(
                name,
                b" could not be opened, and the input ends there",
                error,
            ),
        }
    }

    // The end of a file: the next argument is looked at; after standard input there is none.
    fn end_file(&mut self) {
        self.place = match self.place {
            Place::File { argument, .. } => Place::Argument(argument.wrapping_add(1)),
            _ => Place::Ended(Ok(())),
        };
    }

    // One read into the room, or a step towards it: then nothing is read. What a signal cuts short is no failure.
    pub fn read(&mut self, room: &mut [u8]) -> usize
        ensures { result ≤ length room.new }
    {
        let got = match &mut self.place {
            Place::StandardInput => self.program.rt.stdin().read(room),
            Place::File { file, .. } => file.read(room),
            Place::Argument(argument) => {
                let argument = *argument;
                self.open(argument);
                return 0;
            }
            Place::Ended(_) => return 0,
        };
        match got {
            Ok(0) => self.end_file(),
            Ok(got) => return got,
            Err(error) if error.kind() == ErrorKind::Interrupted => {}
            Err(error) => self.fail_reading(error),
        }
        0
    }

    // Reads until the room is full or the input ends. A proved loop has to end, and nothing says that a file does: it counts its
    // turns, up to a number that no run reaches.
    pub fn fill(&mut self, room: &mut [u8]) -> usize
        ensures { result ≤ length room.new }
    {
        let mut got = 0;
        for _ in 0..u64::MAX {
            if got == room.len() || !self.goes_on() {
                break;
            }
            got += self.read(&mut room[got..]);
        }
        got
    }
}

// Opens a file for reading. std takes a name that is text, in UTF-8; any other is refused as a file system would refuse it that
// has no other names.
fn open(rt: &HostRuntime, name: &[u8]) -> io::Result<File> {
    let text = str::from_utf8(name).map_err(|_| Error::from_raw_os_error(NO_TEXT))?;
    fs::open(rt, text)
}
