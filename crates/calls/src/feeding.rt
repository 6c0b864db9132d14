// Many records a call.
ghost use Rattle.std.specs.Prelude.{◌≡◌};
ghost use Rattle.reader.specs.Lent.{held, SameLent};
ghost use Rattle.calls.specs.Feeding.{handed_fed, FeedGiven};
ghost use Rattle.calls.specs.Inner.Readying.{ready_state};

use feed::Fed;
use reader::Lent;
use record::Refusal;
use shapes::{CFed, CState};
use state::{State, is_sound};

// The answer to the call, and the state and the report after it.
#[derive(Clone, Copy, Debug, PartialEq, Eq)]
pub struct CFeeding {
    pub answer: u8,
    pub state: CState,
    pub fed: CFed,
}

// Rule 1: the state, where it is one that passes the list and the buffers are of their sizes. `sized` is a flag, as in
// `ready_by`: the buffers stay with the caller.
#[tactic(auto, unfolding(shapes::specs::States::state_of, crate::specs::Feeding::ready_by, crate::specs::Inner::Readying::ready_state))]
fn ready(state: CState, sized: bool) -> Option<State>
    ensures { result ≡ ready_state state sized }
{
    if !sized {
        return None;
    }
    let known = State::try_from(state).ok()?;
    if is_sound(known) { Some(known) } else { None }
}

impl From<Fed> for CFeeding {
    ghost from_gives = { λ x y. y ≡ handed_fed x };

    #[tactic(auto, unfolding(record::specs::Refusals::number_or_0))]
    fn from(x: Fed) -> CFeeding {
        CFeeding {
            answer: 0,
            state: CState::from(x.state),
            fed: CFed::new(x.at, x.refusal.map_or(0, Refusal::number), x.closed),
        }
    }
}

pub fn feed(state: CState, fed: CFed, lent: &mut Lent, bytes: &[u8]) -> CFeeding
    ensures is { FeedGiven state fed (held lent.old) bytes.now result (held lent.new) }
    ensures same_references { SameLent lent.old lent.new }
{
    let Some(known) = ready(state, lent.is_sized()) else {
        return CFeeding {
            answer: 1,
            state,
            fed,
        };
    };
    CFeeding::from(feed::feed(known, lent, bytes, 0))
}
