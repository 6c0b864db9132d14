// The listing, from its first line to its last, and what is said of refused records.
use feed::Fed;
use programs::{Failed, Program};
use record::{Record, Refusal};
use state::Closed;

const SIZE: usize = 32768;

#[derive(Drop)]
pub(crate) struct Page<'a> {
    program: Program<'a>,
    verbose: bool,
    bytes: [u8; SIZE],
    // no `ArrayVec`, since `listing` is lent the whole room and a place in it (`Written`; fixed memory, no heap):
    // how many of them are not yet written
    made: usize,
    refused: u64,
}

impl<'a> Page<'a> {
    pub(crate) fn new(program: Program<'a>, verbose: bool) -> Self {
        let mut bytes = [0; SIZE];
        let made = listing::put_header(&mut bytes, 0);
        Page {
            program,
            verbose,
            bytes,
            made,
            refused: 0,
        }
    }
}

impl Page<'_> {
    fn write(&mut self) -> Result<(), Failed> {
        let made = self.made.min(SIZE);
        self.made = 0;
        self.program.write(&self.bytes[..made])
    }

    // Lines gather in a page that is written when the next lines could be too many for it: when there is too little room for what one
    // record can close, and the last line after it.
    fn make_room(&mut self) -> Result<(), Failed> {
        if SIZE - self.made.min(SIZE) < listing::CLOSED + listing::REFUSED {
            self.write()?;
        }
        Ok(())
    }

    // What the last record taken has to tell; it began at the offset.
    pub(crate) fn tell(&mut self, fed: Fed, offset: u64) -> Result<(), Failed> {
        self.make_room()?;
        self.made = listing::put_closed(fed.closed, &mut self.bytes, self.made);
        if let Some(refusal) = fed.refusal {
            self.refuse(offset, refusal);
        }
        Ok(())
    }

    // The record that begins at the offset was refused. Where standard error can't be written there is nobody to tell.
    pub(crate) fn refuse(&mut self, offset: u64, refusal: Refusal) {
        self.refused = self.refused.wrapping_add(1);
        if self.verbose {
            let number = offset / Record::SIZE as u64;
            let mut line = [0; listing::REFUSAL];
            let length = listing::put_refusal(number, offset, refusal.number(), &mut line, 0);
            let end = length.min(listing::REFUSAL);
            let _ = self.program.rt.stderr().write_all(&line[..end]);
        }
    }

    // What finish closes, and the last line.
    pub(crate) fn end(&mut self, closed: Closed) -> Result<(), Failed> {
        self.make_room()?;
        self.made = listing::put_closed(closed, &mut self.bytes, self.made);
        self.made = listing::put_refused(self.refused, &mut self.bytes, self.made);
        self.write()
    }
}
