// The accumulation's part of the state list (01, "Numbers a refused record gets"), clause by clause.
ghost use Rattle.std.specs.Prelude.{◌≡◌, ◌<◌};
ghost use Rattle.clock.specs.Clock.{full_counts};
ghost use Rattle.accumulation.specs.Soundness.{counts_below, frames_among, frames_fit, others_fit, none_open, accumulation_sound};

use crate::Accumulation;
use clock::{Clock, FULL_COUNTS};
use record::FRAME_MARKS;

#[tactic(auto, unfolding(crate::specs::Soundness::counts_below))]
fn counts_below(a: Accumulation) -> bool
    ensures { result ≡ counts_below a }
{
    (a.first < FULL_COUNTS) & (a.last_count < FULL_COUNTS)
}

#[tactic(auto, using(crate::proofs::Facts::type_above), unfolding(crate::specs::Soundness::frames_among, prelude::specs::Marks::highest))]
fn frames_among(a: Accumulation) -> bool
    ensures { result ≡ frames_among a }
{
    a.held < FRAME_MARKS && (a.held == 0 || (a.last_type <= 35 && a.held >> a.last_type == 1))
}

#[tactic(auto, unfolding(crate::specs::Soundness::frames_fit))]
fn frames_fit(a: Accumulation) -> bool
    requires { a.first < full_counts }
    ensures { result ≡ frames_fit a }
{
    (a.first + a.held.count_ones() as u64).saturating_sub(1) <= a.last_count
}

#[tactic(auto, unfolding(crate::specs::Soundness::others_fit))]
fn others_fit(clock: Clock, a: Accumulation) -> bool
    ensures { result ≡ others_fit clock a }
{
    a.last_count <= clock.last && a.others <= clock.last - a.last_count
}

#[tactic(auto, unfolding(crate::specs::Soundness::none_open))]
fn none_open(a: Accumulation) -> bool
    ensures { result ≡ none_open a }
{
    (a.held != 0)
        | ((a.first == 0) & ((a.last_type == 0) & ((a.last_count == 0) & (a.others == 0))))
}

// Does the accumulation pass its part of the list, with this clock?
#[tactic(auto, using(crate::proofs::Facts::first_below), unfolding(crate::specs::Soundness::accumulation_sound))]
pub fn is_sound(clock: Clock, a: Accumulation) -> bool
    ensures { result ≡ accumulation_sound clock a }
{
    if !counts_below(a) {
        return false;
    }
    frames_among(a)
        & (frames_fit(a) & (others_fit(clock, a) & (none_open(a) & clock::begun(clock, a.held))))
}
