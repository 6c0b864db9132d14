// How the input is cut into records: 472 bytes each, from its start on, and a shorter one at its end (01, "The listing, whole").
ghost use Rattle.std.specs.Prelude.{◌+◌, ◌<◌, ◌≡◌};
ghost use Rattle.feed.specs.Cutting.{CutIs, RestIs, is_whole};

use buffers::has_room;
use record::Record;

// The record that begins at place `at`: the caller's own bytes, 472 of them or what is left. A place beside the bytes: it answers for every one.
pub fn cut(bytes: &[u8], at: usize) -> &[u8]
    ensures { CutIs bytes.now bytes.entry.ref_ptr at result.now result.ref_ptr }
{
    if bytes.len() <= at {
        return &bytes[bytes.len()..];
    }
    if bytes.len() - at < Record::SIZE {
        return &bytes[at..];
    }
    &bytes[at..at + Record::SIZE]
}

// Does a whole record begin at place `at` of so many bytes?
#[tactic(auto, unfolding(crate::specs::Cutting::is_whole))]
pub fn is_whole(size: usize, at: usize) -> bool
    ensures { result ≡ is_whole size at }
{
    has_room(size, at, Record::SIZE)
}

// The bytes from place `from` to before place `to` come to the front; answers how many they are. The others stay, and all stay
// where there are no such places: then none came.
#[tactic(auto, using(crate::proofs::Rests::all_came))]
pub fn keep_rest(bytes: &mut [u8], from: usize, to: usize) -> usize
    ensures { RestIs bytes.old from to bytes.new result }
{
    if bytes.len() < to || to < from {
        return 0;
    }
    bytes.copy_within(from..to, 0);
    to - from
}
