// What a record makes of the open major frame, and what it reports when it closes (01, "Subcom and major frame", "Joining
// accumulations").
ghost use Rattle.std.specs.Prelude.{◌≡◌, ◌^◌, ◌<◌, is_some, unwrap_or};
ghost use Rattle.major.specs.Major.{no_major, continues, into, major_reported, slot_work, stays, major_renews};
ghost use Rattle.major.specs.Place.{Free, slot_free, leaves, SteppedIs};

use crate::{Major, MajorStep, SLOTS, SlotWork};
use buffers::{Work, no_work};

// No major frame: all 0.
pub fn no_major() -> Major
    ensures { result ≡ no_major }
{
    Major {
        number: 0,
        slots: 0,
        mag_slots: 0,
        ranges: [0; SLOTS],
        words: [0; SLOTS],
    }
}

// What closing a major frame reports: nothing where none is open.
pub fn report(m: Major) -> Option<Major>
    ensures { result ≡ major_reported m }
{
    if m.slots == 0 {
        return None;
    }
    Some(m)
}

// The work on the samples that lays nothing. As `no_packet_work`, over another struct: one has a slot, one a place.
pub fn no_slot_work(work: Work) -> SlotWork
    ensures { result ≡ slot_work work 0 }
{
    SlotWork { work, slot: 0 }
}

// Is the open major frame that of count d?
#[tactic(auto, unfolding(crate::specs::Major::continues))]
fn continues_at(m: Major, d: u64) -> bool
    ensures { result ≡ continues m d }
{
    m.slots != 0 && m.number == d / 16
}

// Are no slots held from that of count d on? Of no state that passes the list, and no later record, is it otherwise.
#[tactic(auto, unfolding(crate::specs::Place::slot_free))]
fn slot_free(m: Major, d: u64) -> bool
    ensures value { result ≡ slot_free m d }
    ensures mag_slots_bound { m.mag_slots < 2 ^ 16 }
{
    m.slots >> (d % 16) == 0 && m.mag_slots >> (d % 16) == 0
}

// A record in its slot, the highest so far: its subcom word; of one with MAG the range too.
#[tactic(auto, using(prelude::proofs::Marks::weight), unfolding(crate::specs::Major::into, prelude::specs::Marks::marked))]
fn put_slot(m: Major, d: u64, mag: Option<u8>, word: u16) -> Major
    requires { Free m d }
    ensures { result ≡ into m d (is_some mag) (unwrap_or mag 0) word }
{
    let slot = (d % 16) as usize;
    let mark = 1u16 << slot;
    let mut n = m;
    n.number = d / 16;
    n.slots = m.slots + mark;
    n.words[slot] = word;
    if let Some(range) = mag {
        n.mag_slots = m.mag_slots + mark;
        n.ranges[slot] = range;
    }
    n
}

// The major frame stays as it is.
fn leave(m: Major) -> MajorStep
    ensures { result ≡ leaves m }
{
    MajorStep {
        next: m,
        report: None,
        work: no_slot_work(no_work()),
    }
}

// A further slot of the open major frame.
fn stay(m: Major, d: u64, mag: Option<u8>, word: u16) -> MajorStep
    requires { Free m d }
    ensures { result ≡ stays m d (is_some mag) (unwrap_or mag 0) word }
{
    MajorStep {
        next: put_slot(m, d, mag, word),
        report: None,
        work: SlotWork {
            work: Work {
                copies: false,
                clears: false,
                lays: mag.is_some(),
            },
            slot: (d % 16) as usize,
        },
    }
}

// The open major frame closes, and a new one opens with that slot alone.
fn renew(m: Major, d: u64, mag: Option<u8>, word: u16) -> MajorStep
    ensures { result ≡ major_renews m d (is_some mag) (unwrap_or mag 0) word }
{
    MajorStep {
        next: put_slot(no_major(), d, mag, word),
        report: report(m),
        work: SlotWork {
            work: Work {
                copies: m.slots != 0,
                clears: true,
                lays: mag.is_some(),
            },
            slot: (d % 16) as usize,
        },
    }
}

// A record at count d: the range of its MAG, if it carries any, and its subcom word. They come beside the major frame: a struct of the three
// would be made for this one call.
#[tactic(auto, using(crate::proofs::Parts::room_free))]
pub fn step(m: Major, d: u64, mag: Option<u8>, word: u16) -> MajorStep
    ensures { SteppedIs m d (is_some mag) (unwrap_or mag 0) word result }
{
    if !continues_at(m, d) {
        return renew(m, d, mag, word);
    }
    if !slot_free(m, d) {
        return leave(m);
    }
    stay(m, d, mag, word)
}
