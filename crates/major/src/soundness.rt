// The major frame's part of the state list (01, "Numbers a refused record gets"), clause by clause.
ghost use Rattle.std.specs.Prelude.{◌≡◌, ◌<◌};
ghost use Rattle.major.specs.Soundness.{slot_test, slots_hold, major_now, no_slot, major_sound};

use crate::{Major, SLOTS};
use clock::Clock;

// Slot i, below 16: its two marks, its range, its word; it is handed these and not the frame, which would be copied. Neither this
// nor the loop over the slots has a branch that depends on what is held, so that the compiler tests eight slots at once.
#[tactic(auto, unfolding(crate::specs::Soundness::slot_test))]
fn slot_holds(slots: u16, mag_slots: u16, range: u8, word: u16, i: usize) -> bool
    requires { i < 16 }
    ensures { result ≡ slot_test slots mag_slots range word i }
{
    let held = (slots >> i) % 2 == 1;
    let mag = (mag_slots >> i) % 2 == 1;
    (!mag | held) & ((range <= 7) & ((mag | (range == 0)) & (held | (word == 0))))
}

// A count and no `zip` with `all`: `all` leaves at the first slot that fails, which is a branch (see `slot_holds`).
fn slots_hold(m: Major) -> bool
    ensures { result ≡ slots_hold m }
{
    let mut all = true;
    for i in 0..SLOTS {
        all = slot_holds(m.slots, m.mag_slots, m.ranges[i], m.words[i], i) & all;
    }
    all
}

#[tactic(auto, unfolding(crate::specs::Soundness::major_now, prelude::specs::Marks::highest))]
fn major_now(clock: Clock, m: Major) -> bool
    ensures { result ≡ major_now clock m }
{
    m.slots == 0 || (m.number == clock.last / 16 && m.slots >> (clock.last % 16) == 1)
}

#[tactic(auto, unfolding(crate::specs::Soundness::no_slot))]
fn no_slot(m: Major) -> bool
    ensures { result ≡ no_slot m }
{
    m.slots != 0 || m.number == 0
}

// Does the major frame pass its part of the list, with this clock?
#[tactic(auto, unfolding(crate::specs::Soundness::major_sound))]
pub fn is_sound(clock: Clock, m: Major) -> bool
    ensures { result ≡ major_sound clock m }
{
    slots_hold(m) && major_now(clock, m) && no_slot(m) && clock::begun(clock, m.slots as u64)
}
