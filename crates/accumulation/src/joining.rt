// Which frames join the open accumulation (01, "Joining accumulations").
ghost use Rattle.std.specs.Prelude.{◌≡◌};
ghost use Rattle.accumulation.specs.Accumulation.{joins};
ghost use Rattle.accumulation.specs.Place.{in_place};
ghost use Rattle.accumulation.specs.Inner.Joining.{After};

use crate::Accumulation;
use record::FRAME_MARKS;

// Does count d lie after the last frame and the other frames since, is u one of the packet's types, and are the frames held among
// 36? Of no state that passes the list, and no later record, is it otherwise.
#[tactic(auto, unfolding(crate::specs::Place::in_place))]
pub(crate) fn in_place(a: Accumulation, u: u8, d: u64) -> bool
    ensures { result ≡ in_place a u d }
{
    u < 64
        && a.held < FRAME_MARKS
        && (a.held == 0 || (a.last_count < d && a.others < d - a.last_count))
}

// Does a frame with science, of type u at count d, join?
#[tactic(auto, unfolding(crate::specs::Accumulation::joins))]
pub(crate) fn joins_at(a: Accumulation, u: u8, d: u64) -> bool
    requires { After a d }
    ensures { result ≡ joins a u d }
{
    if a.held == 0 || u <= a.last_type {
        return false;
    }
    let apart = (u - a.last_type) as u64;
    let g = d - a.last_count - 1 - a.others;
    apart - 1 <= g && g <= 34 + apart
}
