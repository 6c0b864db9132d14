// The open snapshot of a burst: which packets join it, what a record makes of it, what it reports when it closes, and its part of the
// state list (02, request 2). No buffer is touched here.
#![tactic(auto)]

mod packets;
mod soundness;
mod steps;

use buffers::Work;
pub use soundness::is_sound;
pub use steps::{no_packet_work, no_snapshot, report, step};

// No option where none is open: any state may be handed in (demand 1), and one with a field left over is refused with 1 (`none_open`).
// The count of the frame that brought its first packet, the packets held (bit t - 36 for type t), the type of its last packet, and
// whether, since that one, a count wasn't accepted or a burst packet came whose type byte has bit 6. It is open when it holds a packet.
#[derive(Clone, Copy, Debug, PartialEq, Eq)]
pub struct Snapshot {
    pub first: u64,
    pub held: u32,
    pub last_type: u8,
    pub cut: bool,
}

// Of a snapshot that was closed, the count of its first packet's frame and the packets it holds. Alike to an accumulation's but for the width
// of the marks: a type over both would be one more name for two fields.
#[derive(Clone, Copy, Debug, PartialEq, Eq)]
pub struct SnapshotReport {
    pub first: u64,
    pub held: u32,
}

// What is done to the snapshot's bytes, and where a packet's own are laid: a place, where a major frame's work (`SlotWork`) has a slot. It stands
// beside the flag `lays`, 0 where nothing is laid: so `packet_work` in the statements has it.
#[derive(Clone, Copy)]
pub struct PacketWork {
    pub work: Work,
    pub at: usize,
}

// A packet's part in it: the snapshot after it, what closed, and what is done to the bytes.
#[derive(Clone, Copy)]
pub struct PacketStep {
    pub next: Snapshot,
    pub report: Option<SnapshotReport>,
    pub work: PacketWork,
}

// A record's: the snapshot after both of its packets, what closed first and second, and what is done for each.
#[derive(Clone, Copy)]
pub struct SnapshotStep {
    pub next: Snapshot,
    pub first: Option<SnapshotReport>,
    pub second: Option<SnapshotReport>,
    pub one: PacketWork,
    pub two: PacketWork,
}

// The type of the first packet.
const FIRST: u8 = 36;
