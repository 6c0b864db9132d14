// The 472-byte record of the merged archive file: its fixed places, rules 2 to 11, its fields, its packet.
// Papers: 01 "The record" and "Numbers a refused record gets", the label 002, 000 section 2.
#![tactic(auto)]

mod frame;
mod part;
mod refusal;
mod rules;
mod signal;
mod values;

pub use frame::{Kind, first_burst, kind_of};
pub use part::{burst_bytes, mag_bytes, packet, packet_in, science_bytes};
pub use refusal::Refusal;
pub use rules::check;
pub use signal::{Level, Reading, bits_of, level_of};
pub use values::fields;

// The fields of a record that passes rules 2 to 11; the second code is that of a full burst's second packet, and 0 in any other
// frame. Its fixed facts are the constants below, written once.
#[derive(Clone, Copy, Debug)]
pub struct Record {
    pub count: u32,
    pub day: u16,
    pub millisecond: u32,
    pub first_flag: u8,
    pub second_flag: u8,
    pub third_flag: u8,
    pub frame_code: u8,
    pub frame_type: u8,
    pub kind: Kind,
    pub second_code: u8,
    pub subcom: u16,
    pub reading: Reading,
}

impl Record {
    pub const SIZE: usize = 472;

    pub const SYNC_AT: usize = 0;

    pub const SYNC: u32 = 0x1ACFFC1D;

    pub const HEADER_AT: usize = 4;

    // version 01, then spacecraft 10011011
    pub const VERSION_SPACECRAFT: u16 = 0x19B;

    pub const RATE: u16 = 5;

    pub const COUNT_AT: usize = 6;

    pub const SPARE_AT: usize = 9;

    pub const PACKET_AT: usize = 286;

    pub const PACKET_SIZE: usize = 168;

    pub const PACKET_END: usize = Record::PACKET_AT + Record::PACKET_SIZE;

    pub const DAY_AT: usize = 456;

    pub const DAYS: u16 = 366;

    pub const MILLISECOND_AT: usize = 458;

    pub const MILLISECONDS: u32 = 86400000;

    pub const LEVEL_AT: usize = 462;

    pub const QUALITY_AT: usize = 466;

    pub const STATUS_AT: usize = 470;

    // In the packet (000, section 2): the Frame Code, the Digital Subcom word, the MAG bytes, the ER bytes.
    pub const CODE_AT: usize = 0;

    pub const SUBCOM_AT: usize = 1;

    pub const MAG_AT: usize = 3;

    pub const MAG_SIZE: usize = 82;

    pub const SCIENCE_AT: usize = 85;

    pub const SCIENCE_SIZE: usize = 83;

    // In a burst frame (000, sections 2.1.2, 2.1.3): 82 bytes where MAG stands, a byte, 82 bytes.
    pub const SECOND_CODE_AT: usize = 85;

    pub const SECOND_AT: usize = 86;

    pub const BURST_SIZE: usize = 82;
}

// Marks of the frames held, bit t for real-time type t, are below it: from 2^36 on a mark above type 35 is set.
pub const FRAME_MARKS: u64 = 68719476736;
