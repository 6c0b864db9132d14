// A buffer closed: copied to a finished one, and cleared, where that is to be done.
ghost use Rattle.reader.specs.Inner.Asked.{Alike, ClosedBy};

use buffers::Work;

// Copied, cleared: in this order. Open and finished buffer are two parameters: both are fields of `Lent`, lent on for this call; a struct of the
// two would live no longer.
pub(crate) fn close<T: Copy>(work: Work, zero: T, opened: &mut [T], finished: &mut [T])
    requires { Alike work opened.old finished.old }
    ensures { ClosedBy work zero opened.old finished.old opened.new finished.new }
{
    if work.copies {
        buffers::copy(opened, finished);
    }
    if work.clears {
        buffers::clear(opened, zero);
    }
}
