// What a burst packet's type byte says: which packets are a snapshot's, which cut, which join (02, request 2).
ghost use Rattle.std.specs.Prelude.{◌≡◌};
ghost use Rattle.snapshot.specs.Snapshot.{is_part, cuts, follows, cut_if, joins};

use crate::{FIRST, Snapshot};
use clock::Clock;

// Is its type one of a snapshot's, 36 to 55?
#[tactic(auto, unfolding(crate::specs::Snapshot::is_part))]
pub(crate) fn is_part(code: u8) -> bool
    ensures { result ≡ is_part code }
{
    matches!(code % 64, FIRST..=55)
}

// Is bit 6 set?
#[tactic(auto, unfolding(crate::specs::Snapshot::cuts))]
pub(crate) fn cuts(code: u8) -> bool
    ensures { result ≡ cuts code }
{
    code / 64 % 2 == 1
}

// Does a record at count d come right after the last accepted one?
pub(crate) fn follows(clock: Clock, d: u64) -> bool
    ensures { result ≡ follows clock d }
{
    d != 0 && d - 1 == clock.last
}

// What is open is cut where b holds: a flag, as in the definition of that name.
pub(crate) fn cut_if(b: bool, s: Snapshot) -> Snapshot
    ensures { result ≡ cut_if b s }
{
    Snapshot {
        cut: ((s.held != 0) & b) | s.cut,
        ..s
    }
}

// Does a packet of types 36 to 55 join?
#[tactic(auto, unfolding(crate::specs::Snapshot::joins))]
pub(crate) fn joins(s: Snapshot, code: u8) -> bool
    ensures { result ≡ joins s code }
{
    (s.held != 0) & ((s.last_type < code % 64) & (!s.cut & !cuts(code)))
}
