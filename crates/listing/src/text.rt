// Bytes put into a buffer, one text after another.
ghost use Rattle.std.specs.Prelude.{◌+◌, ◌≤◌, length};
ghost use Rattle.listing.specs.Inner.Putting.{Puts};

// A lent buffer, and the place where the next text begins. No `ArrayVec`: the buffer is the caller's own (fixed memory, no heap).
#[derive(Drop)]
pub(crate) struct Page<'a> {
    pub(crate) bytes: &'a mut [u8],
    pub(crate) made: usize,
}

impl<'a> Page<'a> {
    pub(crate) fn text(&mut self, text: &[u8])
        requires { self.old.made + length text.now ≤ length self.old.bytes.now }
        ensures { Puts self.old text.now self.new }
    {
        buffers::lay(text, self.bytes, self.made);
        self.made += text.len();
    }
}
