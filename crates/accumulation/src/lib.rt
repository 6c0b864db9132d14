// The open accumulation: what joins it, what a record makes of it, what it reports when it closes, and its part of the state list
// (01, "Joining accumulations", "Numbers a refused record gets"). No buffer is touched here.
#![tactic(auto)]

mod joining;
mod soundness;
mod steps;

use buffers::Work;
pub use soundness::is_sound;
pub use steps::{no_accumulation, report, step};

// No option where none is open: any state may be handed in (demand 1), and one with a field left over is refused with 1 (`none_open`).
// The count of its first frame, the frames held (bit u for type u), the type and the count of its last frame, the other frames
// accepted since. It is open when it holds a frame.
#[derive(Clone, Copy, Debug, PartialEq, Eq)]
pub struct Accumulation {
    pub first: u64,
    pub held: u64,
    pub last_type: u8,
    pub last_count: u64,
    pub others: u64,
}

// What became of a frame: one with science opens an accumulation or joins the open one, another does neither.
#[derive(Clone, Copy, Debug, PartialEq, Eq)]
pub enum GapDecision {
    Opens,
    Joins,
    Neither,
}

// Of an accumulation that was closed, the count of its first frame and the frames it holds.
#[derive(Clone, Copy, Debug, PartialEq, Eq)]
pub struct AccumulationReport {
    pub first: u64,
    pub held: u64,
}

// A record's part in it: the gap decision, the accumulation after it, what closed, and what is done to the cells.
#[derive(Clone, Copy)]
pub struct AccumulationStep {
    pub gap: GapDecision,
    pub next: Accumulation,
    pub report: Option<AccumulationReport>,
    pub work: Work,
}
