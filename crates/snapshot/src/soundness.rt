// The snapshot's part of the state list (02, request 2), clause by clause.
ghost use Rattle.std.specs.Prelude.{◌≡◌};
ghost use Rattle.snapshot.specs.Soundness.{packets_among, last_highest, first_fits, none_open, snapshot_sound};

use crate::{FIRST, Snapshot};
use bursts::PACKET_MARKS;
use clock::Clock;

#[tactic(auto, unfolding(crate::specs::Soundness::packets_among))]
fn packets_among(s: Snapshot) -> bool
    ensures { result ≡ packets_among s }
{
    s.held < PACKET_MARKS
}

#[tactic(auto, using(crate::proofs::Facts::type_above), unfolding(crate::specs::Soundness::last_highest, prelude::specs::Marks::highest))]
fn last_highest(s: Snapshot) -> bool
    ensures { result ≡ last_highest s }
{
    s.held == 0
        || (FIRST <= s.last_type
            && s.last_type - FIRST <= 31
            && s.held >> (s.last_type - FIRST) == 1)
}

#[tactic(auto, unfolding(crate::specs::Soundness::first_fits))]
fn first_fits(clock: Clock, s: Snapshot) -> bool
    ensures { result ≡ first_fits clock s }
{
    s.first <= clock.last
}

#[tactic(auto, unfolding(crate::specs::Soundness::none_open))]
fn none_open(s: Snapshot) -> bool
    ensures { result ≡ none_open s }
{
    (s.held != 0) | ((s.first == 0) & ((s.last_type == 0) & !s.cut))
}

// Does the snapshot pass its part of the list, with this clock? It comes beside: it is another part of the state.
#[tactic(auto, unfolding(crate::specs::Soundness::snapshot_sound))]
pub fn is_sound(clock: Clock, s: Snapshot) -> bool
    ensures { result ≡ snapshot_sound clock s }
{
    packets_among(s)
        & (last_highest(s)
            & (first_fits(clock, s) & (none_open(s) & clock::begun(clock, s.held as u64))))
}
