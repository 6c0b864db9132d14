// The reader's state by value, the list of what it must be, and what a record decides: no buffer is touched here (01, "Joining
// accumulations", "Numbers a refused record gets").
#![tactic(auto)]

ghost use Rattle.std.specs.Prelude.{◌≡◌};
ghost use Rattle.state.specs.Soundness.{fresh, sound};

mod closed;
mod deciding;
mod ending;

use accumulation::Accumulation;
use clock::Clock;
pub use closed::{Closed, Works, nothing_closed};
pub use deciding::{Decided, Stepped, Taken, decide};
pub use ending::{Ended, Finished, end};
use major::Major;
use snapshot::Snapshot;

// Clock, open accumulation, open major frame, open snapshot. Fresh is all 0.
#[derive(Clone, Copy, Debug, PartialEq, Eq)]
pub struct State {
    pub clock: Clock,
    pub accumulation: Accumulation,
    pub major: Major,
    pub snapshot: Snapshot,
}

pub fn fresh() -> State
    ensures { result ≡ fresh }
{
    State {
        clock: clock::unset(),
        accumulation: accumulation::no_accumulation(),
        major: major::no_major(),
        snapshot: snapshot::no_snapshot(),
    }
}

// Does the state pass the list? Each part tests its own; the major frame first, so that its arrays aren't held over the other tests.
#[tactic(auto, unfolding(crate::specs::Soundness::sound))]
pub fn is_sound(state: State) -> bool
    ensures { result ≡ sound state }
{
    major::is_sound(state.clock, state.major)
        && clock::is_sound(state.clock)
        && (accumulation::is_sound(state.clock, state.accumulation)
            & snapshot::is_sound(state.clock, state.snapshot))
}
