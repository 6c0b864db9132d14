// What a call closed, and what is then done to the buffers.
ghost use Rattle.std.specs.Prelude.{◌≡◌};
ghost use Rattle.state.specs.Closed.{nothing_closed, no_works};

use accumulation::AccumulationReport;
use buffers::{Work, no_work};
use major::{Major, SlotWork};
use snapshot::{PacketWork, SnapshotReport};

// One call may close all; the major frame is reported first, then the accumulation, then the snapshots, of which it may close two.
#[derive(Clone, Copy, Debug, PartialEq, Eq)]
pub struct Closed {
    pub major: Option<Major>,
    pub accumulation: Option<AccumulationReport>,
    pub first_snapshot: Option<SnapshotReport>,
    pub second_snapshot: Option<SnapshotReport>,
}

// What is done to the samples, to the cells, and to the snapshot's bytes for each of two packets.
#[derive(Clone, Copy)]
pub struct Works {
    pub samples: SlotWork,
    pub cells: Work,
    pub one: PacketWork,
    pub two: PacketWork,
}

pub fn nothing_closed() -> Closed
    ensures { result ≡ nothing_closed }
{
    Closed {
        major: None,
        accumulation: None,
        first_snapshot: None,
        second_snapshot: None,
    }
}

pub(crate) fn no_works() -> Works
    ensures { result ≡ no_works }
{
    Works {
        samples: major::no_slot_work(no_work()),
        cells: no_work(),
        one: snapshot::no_packet_work(no_work()),
        two: snapshot::no_packet_work(no_work()),
    }
}
