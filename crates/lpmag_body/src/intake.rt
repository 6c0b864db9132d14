// The bytes at hand: what was read of the input, and how far it is taken.
use programs::{Failed, Source};
use record::Record;

// 256 records: large reads, and little enough to stay in a processor's second cache.
const SIZE: usize = 256 * Record::SIZE;

#[derive(Drop)]
pub(crate) struct Intake<'a> {
    source: Source<'a>,
    bytes: [u8; SIZE],
    // no `ArrayVec`, since `read` and `keep_rest` are lent the whole room and a place in it (fixed memory, no heap):
    // how many are at hand, how far they are taken, and where the first of them stands in the whole input
    have: usize,
    pub at: usize,
    begins: u64,
}

impl<'a> Intake<'a> {
    pub(crate) fn new(source: Source<'a>) -> Self {
        Intake {
            source,
            bytes: [0; SIZE],
            have: 0,
            at: 0,
            begins: 0,
        }
    }
}

impl Intake<'_> {
    // Is there more to read?
    pub(crate) fn goes_on(&self) -> bool {
        self.source.goes_on()
    }

    pub(crate) fn all_read(&self) -> Result<(), Failed> {
        self.source.all_read()
    }

    pub(crate) fn bytes(&self) -> &[u8] {
        &self.bytes[..self.have.min(SIZE)]
    }

    // Where a place of the bytes at hand stands in the whole input.
    pub(crate) fn offset(&self, at: usize) -> u64 {
        self.begins.wrapping_add(at as u64)
    }

    // Where no whole record is at hand any more, the rest comes to the front, and one read is made behind it.
    pub(crate) fn refill(&mut self) {
        if feed::is_whole(self.have, self.at) {
            return;
        }
        self.begins = self.offset(self.at);
        self.have = feed::keep_rest(&mut self.bytes, self.at, self.have).min(SIZE);
        self.at = 0;
        self.have += self.source.read(&mut self.bytes[self.have..]);
    }
}
