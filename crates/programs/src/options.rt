// A program's options, each a word of `-` and one letter, `-h` among them; any other word is a file's name.
use crate::Program;
use std::env::{Env, FillError};

// Room for an argument that can be a file's name (PATH_MAX).
pub(crate) const WORD: usize = 4096;

#[derive(Clone, Copy, Debug, PartialEq, Eq)]
pub struct Options<const N: usize> {
    // which of the program's own letters were given, in the order in which it names them
    pub given: [bool; N],
    // Three flags by themselves, no value beside one. Was a file named?
    pub files: bool,
    // Was it asked to explain itself?
    pub(crate) help: bool,
    // Was there an option that it doesn't know?
    pub(crate) wrong: bool,
}

// Is it a file's name, and not an option?
pub(crate) fn is_file(word: &[u8]) -> bool {
    word.first() != Some(&b'-')
}

impl<const N: usize> Options<N> {
    // Each option that the program doesn't know is named on standard error. What is too long for a name isn't looked at: it counts
    // as one, and can't be opened. Arguments are counted, up to a number that no run reaches: std's iterator over them takes the heap.
    pub(crate) fn read(program: &Program, letters: &[u8; N]) -> Self {
        let mut options = Options {
            given: [false; N],
            files: false,
            help: false,
            wrong: false,
        };
        let mut room = [0u8; WORD];
        for i in 1..usize::MAX {
            match program.rt.arg(i, &mut room) {
                Ok(length) => options.take(program, letters, &room[..length]),
                Err(FillError::TooLong) => options.files = true,
                Err(FillError::NotPresent) => break,
            }
        }
        options
    }

    fn take(&mut self, program: &Program, letters: &[u8; N], word: &[u8]) {
        if is_file(word) {
            self.files = true;
            return;
        }
        match word {
            [_, b'h'] => self.help = true,
            [_, letter] if let Some(place) = letters.iter().position(|known| known == letter) => {
                self.given[place] = true;
            }
            _ => {
                program.unknown(word);
                self.wrong = true;
            }
        }
    }
}
