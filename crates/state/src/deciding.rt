// What a record decides, from the state, the buffers' sizes and the record alone: the rules, the next state, what is reported, and
// what is then to be done to the buffers.
ghost use Rattle.std.specs.Prelude.{true, ◌≡◌, ◌<◌, length};
ghost use Rattle.record.specs.Layout.{size, packet_bytes, mag_bytes};
ghost use Rattle.mag.specs.Samples.{range};
ghost use Rattle.state.specs.Soundness.{sound};
ghost use Rattle.state.specs.Deciding.{acceptance, DecidedIs};
ghost use Rattle.state.specs.Inner.Accepting.{refused_with, admitted_of, Ready};

use crate::closed::{Closed, Works, no_works, nothing_closed};
use crate::{State, is_sound};
use accumulation::{Accumulation, GapDecision};
use clock::Clock;
use record::{Record, Refusal};

// An accepted record: its fields, among them its kind, and the gap decision.
#[derive(Clone, Copy)]
pub struct Taken {
    pub fields: Record,
    pub gap: GapDecision,
}

// The answer to a record, the state after it, and what it closed.
#[derive(Clone, Copy)]
pub struct Stepped {
    pub answer: Result<Taken, Refusal>,
    pub state: State,
    pub closed: Closed,
}

// That, and what is then done to samples, cells and the snapshot's bytes.
#[derive(Clone, Copy)]
pub struct Decided {
    pub stepped: Stepped,
    pub works: Works,
}

// The range of a record's MAG bytes: a number and no option, since of 472 bytes there is one (`range`, mag/Samples).
fn range_in(r: &[u8]) -> u8
    requires { length r.now ≡ size }
    ensures { result ≡ range (mag_bytes (packet_bytes r.now)) }
{
    mag::range_of(record::mag_bytes(record::packet_in(r))).unwrap_or(0)
}

// A refusal: the state as it was, nothing closed, nothing done.
fn refused(state: State, refusal: Refusal) -> Decided
    ensures { result ≡ refused_with state refusal }
{
    Decided {
        stepped: Stepped {
            answer: Err(refusal),
            state,
            closed: nothing_closed(),
        },
        works: no_works(),
    }
}

// A record that no rule refuses, at full count d: one part for the clock, one for the accumulation, one for the major frame, one for
// the snapshot.
fn accept(state: State, f: Record, d: u64, range: u8) -> Decided
    requires { Ready state f d }
    ensures { result ≡ acceptance state f d range }
{
    let kind = f.kind;
    let science = kind.carries_science();
    let mag = kind.carries_mag().then_some(range);
    let cells = accumulation::step(state.accumulation, science, f.frame_type, d);
    let samples = major::step(state.major, d, mag, f.subcom);
    let one = record::first_burst(kind, f.frame_code);
    let bursts = snapshot::step(state.clock, state.snapshot, d, one, f.second_code);
    Decided {
        stepped: Stepped {
            answer: Ok(Taken {
                fields: f,
                gap: cells.gap,
            }),
            state: State {
                clock: clock::accepted(d),
                accumulation: cells.next,
                major: samples.next,
                snapshot: bursts.next,
            },
            closed: Closed {
                major: samples.report,
                accumulation: cells.report,
                first_snapshot: bursts.first,
                second_snapshot: bursts.second,
            },
        },
        works: Works {
            samples: samples.work,
            cells: cells.work,
            one: bursts.one,
            two: bursts.two,
        },
    }
}

// A record that no rule refuses: its fields, and the full count at which it stands.
#[derive(Clone, Copy)]
struct Admitted {
    fields: Record,
    count: u64,
}

// Rules 1 to 12 and 14, in their order.
fn admit(state: State, sized: bool, r: &[u8]) -> Result<Admitted, Refusal>
    ensures { result ≡ admitted_of (record { state = state; sized = sized; bytes = r.now }) }
{
    if !sized || !is_sound(state) {
        return Err(Refusal::BufferOrState);
    }
    let fields = record::fields(r)?;
    let count = clock::arrival_of(state.clock, fields.count)?;
    Ok(Admitted { fields, count })
}

fn decide_on(state: State, sized: bool, r: &[u8]) -> Decided
    ensures { DecidedIs state sized r.now result }
{
    match admit(state, sized, r) {
        Ok(x) => accept(state, x.fields, x.count, range_in(r)),
        Err(refusal) => refused(state, refusal),
    }
}

// The state from its fields. A struct is copied with its padding, seven bytes after `any` and seven after `last_type`: the compiler
// moves such seven in two overlapping halves, and the processor waits at each copy of a copy. What is put together has no padding.
fn from_fields(state: State) -> State
    ensures { result ≡ state }
{
    let c = state.clock;
    let a = state.accumulation;
    let major = state.major;
    let snapshot = state.snapshot;
    State {
        clock: Clock {
            any: c.any,
            last: c.last,
        },
        accumulation: Accumulation {
            first: a.first,
            held: a.held,
            last_type: a.last_type,
            last_count: a.last_count,
            others: a.others,
        },
        major,
        snapshot,
    }
}

// `sized`: whether all lent buffers are of their size. A flag: `DecidedIs` speaks of it, and no buffer is known here.
pub fn decide(state: State, sized: bool, r: &[u8]) -> Decided
    ensures { DecidedIs state sized r.now result }
{
    decide_on(from_fields(state), sized, r)
}
