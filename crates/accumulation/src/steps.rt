// What a record makes of the open accumulation, and what it reports when it closes (01, "Joining accumulations").
ghost use Rattle.std.specs.Prelude.{◌≡◌, ◌^◌, ◌<◌};
ghost use Rattle.accumulation.specs.Accumulation.{no_accumulation, reported, passes, extends, renews};
ghost use Rattle.accumulation.specs.Place.{leaves, stepped_at};
ghost use Rattle.accumulation.specs.Inner.Joining.{After};

use crate::joining::{in_place, joins_at};
use crate::{Accumulation, AccumulationReport, AccumulationStep, GapDecision};
use buffers::{Work, no_work};

// No accumulation: all 0.
pub fn no_accumulation() -> Accumulation
    ensures { result ≡ no_accumulation }
{
    Accumulation {
        first: 0,
        held: 0,
        last_type: 0,
        last_count: 0,
        others: 0,
    }
}

// What closing an accumulation reports: nothing where none is open.
pub fn report(a: Accumulation) -> Option<AccumulationReport>
    ensures { result ≡ reported a }
{
    if a.held == 0 {
        return None;
    }
    Some(AccumulationReport {
        first: a.first,
        held: a.held,
    })
}

// The accumulation stays as it is.
fn leave(a: Accumulation) -> AccumulationStep
    ensures { result ≡ leaves a }
{
    AccumulationStep {
        gap: GapDecision::Neither,
        next: a,
        report: None,
        work: no_work(),
    }
}

// One more other frame since the accumulation's last; none is counted while none is open.
fn pass(a: Accumulation, d: u64) -> AccumulationStep
    requires { After a d }
    ensures { result ≡ passes a }
{
    if a.held == 0 {
        return leave(a);
    }
    leave(Accumulation {
        others: a.others + 1,
        ..a
    })
}

// A frame of type u at count d after those it holds.
#[tactic(auto, using(prelude::proofs::Marks::weight), unfolding(prelude::specs::Marks::marked))]
fn extend(a: Accumulation, u: u8, d: u64) -> AccumulationStep
    requires { (u < 64) × (a.held < 2 ^ 36) }
    ensures { result ≡ extends a u d }
{
    AccumulationStep {
        gap: GapDecision::Joins,
        next: Accumulation {
            first: a.first,
            held: a.held + (1u64 << u),
            last_type: u,
            last_count: d,
            others: 0,
        },
        report: None,
        work: Work {
            copies: false,
            clears: false,
            lays: true,
        },
    }
}

// The open accumulation closes, and a new one opens with that frame alone.
fn renew(a: Accumulation, u: u8, d: u64) -> AccumulationStep
    requires { u < 64 }
    ensures { result ≡ renews a u d }
{
    AccumulationStep {
        gap: GapDecision::Opens,
        next: Accumulation {
            first: d,
            held: 1u64 << u,
            last_type: u,
            last_count: d,
            others: 0,
        },
        report: report(a),
        work: Work {
            copies: a.held != 0,
            clears: true,
            lays: true,
        },
    }
}

// A frame at count d, with science of type u or without. The type comes with either: what is out of place is asked of both (`in_place`). Both
// come beside the accumulation: a struct of the two would be made for this one call.
#[tactic(auto, using(crate::proofs::Facts::placed), unfolding(crate::specs::Place::stepped_at, crate::specs::Accumulation::step_accumulation))]
pub fn step(a: Accumulation, science: bool, u: u8, d: u64) -> AccumulationStep
    ensures { result ≡ stepped_at a science u d }
{
    if !in_place(a, u, d) {
        return leave(a);
    }
    if !science {
        return pass(a, d);
    }
    if joins_at(a, u, d) {
        return extend(a, u, d);
    }
    renew(a, u, d)
}
