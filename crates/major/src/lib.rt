// The open major frame: what a record makes of it, what it reports when it closes, and its part of the state list (01, "Subcom and
// major frame", "Joining accumulations", "Numbers a refused record gets"). No buffer is touched here.
#![tactic(auto)]

mod soundness;
mod steps;

use buffers::Work;
pub use soundness::is_sound;
pub use steps::{no_major, no_slot_work, report, step};

// The slots of a major frame, and the samples of all of them.
pub const SLOTS: usize = 16;

pub const MAJOR_SAMPLES: usize = SLOTS * mag::FRAME_SAMPLES;

// No option where none is open: any state may be handed in (demand 1), and one with a number left over is refused with 1 (`no_slot`).
// A major frame: its number, subcom words and ranges by slot, the slots held and those held with MAG (bit s for slot s). It is open when it holds a
// slot. In this order the words and ranges begin at multiples of 16 bytes of the state, and are copied and tested in whole ones.
#[derive(Clone, Copy, Debug, PartialEq, Eq)]
pub struct Major {
    pub number: u64,
    pub words: [u16; SLOTS],
    pub ranges: [u8; SLOTS],
    pub slots: u16,
    pub mag_slots: u16,
}

// What is done to the samples, and in which slot a record's own are laid. The slot stands beside the flag `lays`, 0 where nothing is laid: so
// `slot_work` and `MajorStep` in the statements have it.
#[derive(Clone, Copy)]
pub struct SlotWork {
    pub work: Work,
    pub slot: usize,
}

// A record's part in it: the major frame after it, the one that closed, and what is done to the samples.
#[derive(Clone, Copy)]
pub struct MajorStep {
    pub next: Major,
    pub report: Option<Major>,
    pub work: SlotWork,
}
