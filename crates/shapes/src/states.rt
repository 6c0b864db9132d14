// The reader's state as C has it.
ghost use Rattle.std.specs.Prelude.{◌≡◌};
ghost use Rattle.shapes.specs.States.{accumulation_in, accumulation_out, snapshot_in, snapshot_out, is_state, state_in, state_of, state_out};

use crate::frames::CMajor;
use accumulation::Accumulation;
use clock::Clock;
use major::Major;
use record::Refusal;
use snapshot::Snapshot;
use state::State;

#[repr(C)]
#[derive(Clone, Copy, Debug, PartialEq, Eq)]
pub struct CAccumulation {
    pub first: u64,
    pub held: u64,
    pub last_count: u64,
    pub others: u64,
    pub last_type: u8,
    pub spare8: u8,
    pub spare16: u16,
    pub spare32: u32,
}

#[repr(C)]
#[derive(Clone, Copy, Debug, PartialEq, Eq)]
pub struct CSnapshot {
    pub first: u64,
    pub held: u32,
    pub last_type: u8,
    pub cut: u8,
    pub spare16: u16,
}

// All 0 is the fresh state.
#[repr(C)]
#[derive(Clone, Copy, Debug, PartialEq, Eq)]
pub struct CState {
    pub last: u64,
    pub any: u8,
    pub spare8: u8,
    pub spare16: u16,
    pub spare32: u32,
    pub accumulation: CAccumulation,
    pub major: CMajor,
    pub snapshot: CSnapshot,
}

// Is each flag 0 or 1, and each spare field 0? Only then is it a state.
#[tactic(auto, unfolding(crate::specs::States::is_state))]
pub fn is_state(c: CState) -> bool
    ensures { result ≡ is_state c }
{
    let a = c.accumulation;
    let m = c.major;
    let s = c.snapshot;
    (c.any <= 1)
        & (c.spare8 == 0)
        & (c.spare16 == 0)
        & (c.spare32 == 0)
        & (a.spare8 == 0)
        & (a.spare16 == 0)
        & (a.spare32 == 0)
        & (m.spare32 == 0)
        & (s.cut <= 1)
        & (s.spare16 == 0)
}

impl From<CAccumulation> for Accumulation {
    ghost from_gives = { λ c a. a ≡ accumulation_in c };

    fn from(c: CAccumulation) -> Accumulation {
        Accumulation {
            first: c.first,
            held: c.held,
            last_type: c.last_type,
            last_count: c.last_count,
            others: c.others,
        }
    }
}

impl From<Accumulation> for CAccumulation {
    ghost from_gives = { λ a c. c ≡ accumulation_out a };

    fn from(a: Accumulation) -> CAccumulation {
        CAccumulation {
            first: a.first,
            held: a.held,
            last_count: a.last_count,
            others: a.others,
            last_type: a.last_type,
            spare8: 0,
            spare16: 0,
            spare32: 0,
        }
    }
}

impl From<CSnapshot> for Snapshot {
    ghost from_gives = { λ c s. s ≡ snapshot_in c };

    fn from(c: CSnapshot) -> Snapshot {
        Snapshot {
            first: c.first,
            held: c.held,
            last_type: c.last_type,
            cut: c.cut == 1,
        }
    }
}

impl From<Snapshot> for CSnapshot {
    ghost from_gives = { λ s c. c ≡ snapshot_out s };

    fn from(s: Snapshot) -> CSnapshot {
        CSnapshot {
            first: s.first,
            held: s.held,
            last_type: s.last_type,
            cut: u8::from(s.cut),
            spare16: 0,
        }
    }
}

// The spare fields aren't looked at, and of a flag only whether it is 1. It stays beside `try_from`: it answers for all contents, and the
// promises of step and finish speak of it (`StepGiven`, `FinishGiven`).
pub fn state_in(c: CState) -> State
    ensures { result ≡ state_in c }
{
    State {
        clock: Clock {
            any: c.any == 1,
            last: c.last,
        },
        accumulation: Accumulation::from(c.accumulation),
        major: Major::from(c.major),
        snapshot: Snapshot::from(c.snapshot),
    }
}

// The state that C's struct stands for, if it stands for one.
impl TryFrom<CState> for State {
    type Error = Refusal;

    ghost try_from_gives = { λ c r. r ≡ state_of c };

    #[tactic(auto, unfolding(crate::specs::States::state_of))]
    fn try_from(c: CState) -> Result<State, Refusal> {
        if !is_state(c) {
            return Err(Refusal::BufferOrState);
        }
        Ok(state_in(c))
    }
}

impl From<State> for CState {
    ghost from_gives = { λ s c. c ≡ state_out s };

    fn from(s: State) -> CState {
        CState {
            last: s.clock.last,
            any: u8::from(s.clock.any),
            spare8: 0,
            spare16: 0,
            spare32: 0,
            accumulation: CAccumulation::from(s.accumulation),
            major: CMajor::from(s.major),
            snapshot: CSnapshot::from(s.snapshot),
        }
    }
}
