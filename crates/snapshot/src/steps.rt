// What a record's burst packets make of the open snapshot, and what it reports when it closes (02, request 2).
ghost use Rattle.std.specs.Prelude.{true, ◌≡◌, ◌^◌, ◌<◌};
ghost use Rattle.snapshot.specs.Snapshot.{no_snapshot, reported, packet_work, is_part, lays, passes, extends, renews, step_packet, together};
ghost use Rattle.snapshot.specs.Place.{leaves, stepped_at};
ghost use Rattle.snapshot.specs.Inner.Passing.{passes_by};

use crate::packets::{cut_if, cuts, follows, is_part, joins};
use crate::{FIRST, PacketStep, PacketWork, Snapshot, SnapshotReport, SnapshotStep};
use buffers::{Work, no_work};
use bursts::PACKET_MARKS;
use clock::Clock;
use record::Record;

// No snapshot: all 0.
pub fn no_snapshot() -> Snapshot
    ensures { result ≡ no_snapshot }
{
    Snapshot {
        first: 0,
        held: 0,
        last_type: 0,
        cut: false,
    }
}

// What closing a snapshot reports: nothing where none is open.
pub fn report(s: Snapshot) -> Option<SnapshotReport>
    ensures { result ≡ reported s }
{
    if s.held == 0 {
        return None;
    }
    Some(SnapshotReport {
        first: s.first,
        held: s.held,
    })
}

// The work that lays nothing.
pub fn no_packet_work(work: Work) -> PacketWork
    ensures { result ≡ packet_work work 0 }
{
    PacketWork { work, at: 0 }
}

// Where the bytes of a packet of types 36 to 55 go, with what is done before that. Three private functions ask for `is_part`, each called once
// behind the test (`step_packet`): a type for it would be one more name. Flags, as in the definition (`lays`).
#[tactic(auto, using(crate::proofs::Facts::part_from))]
fn laying(code: u8, copies: bool, clears: bool) -> PacketWork
    requires { is_part code ≡ true }
    ensures { result ≡ lays code copies clears }
{
    PacketWork {
        work: Work {
            copies,
            clears,
            lays: true,
        },
        at: Record::BURST_SIZE * (code % 64 - FIRST) as usize,
    }
}

// A packet that is none of a snapshot's.
fn pass(s: Snapshot, code: u8) -> PacketStep
    ensures { result ≡ passes s code }
{
    PacketStep {
        next: cut_if(cuts(code), s),
        report: None,
        work: no_packet_work(no_work()),
    }
}

// A packet after those it holds.
#[tactic(auto, using(crate::proofs::Facts::part_marks), unfolding(prelude::specs::Marks::marked))]
fn extend(s: Snapshot, code: u8) -> PacketStep
    requires { (is_part code ≡ true) × (s.held < 2 ^ 21) }
    ensures { result ≡ extends s code }
{
    PacketStep {
        next: Snapshot {
            first: s.first,
            held: s.held + (1u32 << (code % 64 - FIRST)),
            last_type: code % 64,
            cut: false,
        },
        report: None,
        work: laying(code, false, false),
    }
}

// The open snapshot closes, and a new one opens with that packet alone.
#[tactic(auto, using(crate::proofs::Facts::part_marks))]
fn renew(s: Snapshot, d: u64, code: u8) -> PacketStep
    requires { is_part code ≡ true }
    ensures { result ≡ renews s d code }
{
    PacketStep {
        next: Snapshot {
            first: d,
            held: 1u32 << (code % 64 - FIRST),
            last_type: code % 64,
            cut: false,
        },
        report: report(s),
        work: laying(code, s.held != 0, true),
    }
}

// One packet of a record at count d, by its type byte; 0 is no packet's. Both come beside the snapshot: a struct of the two would be made for
// this one call.
#[tactic(auto, unfolding(crate::specs::Snapshot::step_packet))]
fn step_packet(s: Snapshot, d: u64, code: u8) -> PacketStep
    requires { s.held < 2 ^ 21 }
    ensures { result ≡ step_packet s d code }
{
    if !is_part(code) {
        return pass(s, code);
    }
    if joins(s, code) {
        return extend(s, code);
    }
    renew(s, d, code)
}

// The steps of the two packets, one after the other.
fn both(x: PacketStep, y: PacketStep) -> SnapshotStep
    ensures { result ≡ together x y }
{
    SnapshotStep {
        next: y.next,
        first: x.report.or(y.report),
        second: x.report.and(y.report),
        one: x.work,
        two: y.work,
    }
}

// Is none open, and comes no packet? So it is with every record outside a playback: then nothing is done.
#[tactic(auto, unfolding(crate::specs::Inner::Passing::passes_by))]
fn passes_by(s: Snapshot, one: u8, two: u8) -> bool
    ensures { result ≡ passes_by s one two }
{
    (s.held == 0) & ((one == 0) & (two == 0))
}

// The snapshot stays as it is.
fn still(s: Snapshot) -> SnapshotStep
    ensures { result ≡ leaves s }
{
    SnapshotStep {
        next: s,
        first: None,
        second: None,
        one: no_packet_work(no_work()),
        two: no_packet_work(no_work()),
    }
}

// A record at count d after the clock, with the type bytes of its two packets, 0 for one that it hasn't.
#[tactic(auto, using(crate::proofs::Facts::next_below))]
pub fn step(clock: Clock, s: Snapshot, d: u64, one: u8, two: u8) -> SnapshotStep
    ensures { result ≡ stepped_at clock s d one two }
{
    if passes_by(s, one, two) || PACKET_MARKS <= s.held {
        return still(s);
    }
    let x = step_packet(cut_if(!follows(clock, d), s), d, one);
    let y = step_packet(x.next, d, two);
    both(x, y)
}
