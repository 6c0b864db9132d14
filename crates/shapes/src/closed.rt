// What a call closed, and the reports, as C has them.
ghost use Rattle.std.specs.Prelude.{◌≡◌};
ghost use Rattle.shapes.specs.Closed.{closed_snapshot_out, closed_out, report_out, fed_out};

use crate::fields::CFields;
use crate::frames::CMajor;
use accumulation::AccumulationReport;
use snapshot::SnapshotReport;
use state::{Closed, Taken};

// Alike to `CSnapshot` in widths alone: C names each field (include/lpmag.h).
#[repr(C)]
#[derive(Clone, Copy, Debug, PartialEq, Eq)]
pub struct CClosedSnapshot {
    pub first: u64,
    pub held: u32,
    pub closed: u8,
    pub spare8: u8,
    pub spare16: u16,
}

#[repr(C)]
#[derive(Clone, Copy, Debug, PartialEq, Eq)]
pub struct CClosed {
    pub major: CMajor,
    pub accumulation_first: u64,
    pub accumulation_held: u64,
    pub major_closed: u8,
    pub accumulation_closed: u8,
    pub spare16: u16,
    pub spare32: u32,
    pub first_snapshot: CClosedSnapshot,
    pub second_snapshot: CClosedSnapshot,
}

// Of an accepted record.
#[repr(C)]
#[derive(Clone, Copy, Debug, PartialEq, Eq)]
pub struct CReport {
    pub fields: CFields,
    pub gap: u8,
    pub spare8: u8,
    pub spare16: u16,
    pub spare32: u32,
    pub closed: CClosed,
}

// Of many records: the bytes taken, what the last one was answered, and what it closed.
#[repr(C)]
#[derive(Clone, Copy, Debug, PartialEq, Eq)]
pub struct CFed {
    pub taken: u64,
    pub answer: u8,
    pub spare8: u8,
    pub spare16: u16,
    pub spare32: u32,
    pub closed: CClosed,
}

impl From<Option<SnapshotReport>> for CClosedSnapshot {
    ghost from_gives = { λ s c. c ≡ closed_snapshot_out s };

    fn from(s: Option<SnapshotReport>) -> CClosedSnapshot {
        let report = s.unwrap_or(SnapshotReport { first: 0, held: 0 });
        CClosedSnapshot {
            first: report.first,
            held: report.held,
            closed: u8::from(s.is_some()),
            spare8: 0,
            spare16: 0,
        }
    }
}

impl From<Closed> for CClosed {
    ghost from_gives = { λ closed c. c ≡ closed_out closed };

    fn from(closed: Closed) -> CClosed {
        let accumulation = closed
            .accumulation
            .unwrap_or(AccumulationReport { first: 0, held: 0 });
        CClosed {
            major: CMajor::from(closed.major.unwrap_or(major::no_major())),
            accumulation_first: accumulation.first,
            accumulation_held: accumulation.held,
            major_closed: u8::from(closed.major.is_some()),
            accumulation_closed: u8::from(closed.accumulation.is_some()),
            spare16: 0,
            spare32: 0,
            first_snapshot: CClosedSnapshot::from(closed.first_snapshot),
            second_snapshot: CClosedSnapshot::from(closed.second_snapshot),
        }
    }
}

impl CReport {
    #[tactic(auto, unfolding(crate::specs::Closed::gap_number))]
    pub fn new(taken: Taken, closed: Closed) -> CReport
        ensures { result ≡ report_out taken closed }
    {
        CReport {
            fields: CFields::from(taken.fields),
            gap: taken.gap as u8,
            spare8: 0,
            spare16: 0,
            spare32: 0,
            closed: CClosed::from(closed),
        }
    }
}

impl CFed {
    pub fn new(taken: usize, answer: u8, closed: Closed) -> CFed
        ensures { result ≡ fed_out taken answer closed }
    {
        CFed {
            taken: taken as u64,
            answer,
            spare8: 0,
            spare16: 0,
            spare32: 0,
            closed: CClosed::from(closed),
        }
    }
}
