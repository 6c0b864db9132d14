// The reader's clock: what "later" means, the turns, at which full count a record stands, and the clock's part of the state list
// (01, "Numbers a refused record gets"; 02, request 1).
#![tactic(auto)]

ghost use Rattle.std.specs.Prelude.{◌≡◌};
ghost use Rattle.clock.specs.Clock.{ahead, arrival_at, accepted, unset, begun, clock_sound};

use record::Refusal;

// Whether anything was accepted, and the full count of the last accepted record: its turn is what lies above 24 bits. A flag and a
// number, since a state may be handed in where the number isn't 0 though nothing was accepted, and is refused (`clock_sound`).
#[derive(Clone, Copy, Debug, PartialEq, Eq)]
pub struct Clock {
    pub any: bool,
    pub last: u64,
}

// 2^24: a record's own count goes round below it.
const CIRCLE: u64 = 16777216;

// The most counts that a later record lies ahead.
const FARTHEST: u64 = 8388607;

// Full counts of the state are below it: 2^36.
pub const FULL_COUNTS: u64 = 68719476736;

pub fn unset() -> Clock
    ensures { result ≡ unset }
{
    Clock {
        any: false,
        last: 0,
    }
}

// Once a record at full count d was accepted.
pub fn accepted(d: u64) -> Clock
    ensures { result ≡ accepted d }
{
    Clock { any: true, last: d }
}

// How far round the circle a count lies after that of the last accepted record.
fn ahead(clock: Clock, count: u32) -> u64
    ensures { result ≡ ahead clock count }
{
    (count as u64 + CIRCLE - clock.last % CIRCLE) % CIRCLE
}

// The full count at which a record stands whose own field says `count`; or it isn't later; or its turn would be past the last. A later
// one stands as far above the last accepted as it lies ahead, whatever its turn.
#[tactic(auto, using(crate::proofs::Laws::comes))]
pub fn arrival_of(clock: Clock, count: u32) -> Result<u64, Refusal>
    ensures { result ≡ arrival_at clock count }
{
    if !clock.any {
        return Ok(count as u64 % CIRCLE);
    }
    let ahead = ahead(clock, count);
    if ahead == 0 {
        return Err(Refusal::NotLater);
    }
    if FARTHEST < ahead {
        return Err(Refusal::NotLater);
    }
    if FULL_COUNTS - ahead <= clock.last {
        return Err(Refusal::PastTurns);
    }
    Ok(clock.last + ahead)
}

// Was something accepted, or is the number 0?
pub fn begun(clock: Clock, n: u64) -> bool
    ensures { result ≡ begun clock n }
{
    clock.any || n == 0
}

// Does the clock pass its part of the list?
#[tactic(auto, unfolding(crate::specs::Clock::clock_sound))]
pub fn is_sound(clock: Clock) -> bool
    ensures { result ≡ clock_sound clock }
{
    clock.last < FULL_COUNTS && begun(clock, clock.last)
}
