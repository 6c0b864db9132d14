// What finish decides (01, "Joining accumulations"): all close that are open, the last accepted count is kept.
ghost use Rattle.std.specs.Prelude.{◌≡◌};
ghost use Rattle.state.specs.Ending.{unended, EndedIs};

use crate::closed::{Closed, Works, no_works, nothing_closed};
use crate::{State, is_sound};
use buffers::{closing_work, no_work};
use record::Refusal;

// The answer, the state after it, and what it closed. As `Stepped` but for the answer, which has no record: the statements on finish speak of
// `ending` (`EndedIs`, `finish_untouched`).
#[derive(Clone, Copy)]
pub struct Finished {
    pub ending: Result<(), Refusal>,
    pub state: State,
    pub closed: Closed,
}

// That, and what is then done to samples, cells and the snapshot's bytes.
#[derive(Clone, Copy)]
pub struct Ended {
    pub finished: Finished,
    pub works: Works,
}

#[tactic(auto, unfolding(record::specs::Refusals::numbered, record::specs::Refusals::table))]
fn not_ended(state: State) -> Ended
    ensures { result ≡ unended state }
{
    Ended {
        finished: Finished {
            ending: Err(Refusal::BufferOrState),
            state,
            closed: nothing_closed(),
        },
        works: no_works(),
    }
}

// `sized`: whether all lent buffers are of their size. A flag: `EndedIs` speaks of it, and no buffer is known here.
pub fn end(state: State, sized: bool) -> Ended
    ensures { EndedIs state sized result }
{
    if !sized || !is_sound(state) {
        return not_ended(state);
    }
    let State {
        clock,
        accumulation: a,
        major: m,
        snapshot: s,
    } = state;
    Ended {
        finished: Finished {
            ending: Ok(()),
            state: State {
                clock,
                accumulation: accumulation::no_accumulation(),
                major: major::no_major(),
                snapshot: snapshot::no_snapshot(),
            },
            closed: Closed {
                major: major::report(m),
                accumulation: accumulation::report(a),
                first_snapshot: snapshot::report(s),
                second_snapshot: None,
            },
        },
        works: Works {
            samples: major::no_slot_work(closing_work(m.slots != 0)),
            cells: closing_work(a.held != 0),
            one: snapshot::no_packet_work(closing_work(s.held != 0)),
            two: snapshot::no_packet_work(no_work()),
        },
    }
}
