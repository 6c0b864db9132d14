// The packet part of a record, and the parts of a packet: the caller's own bytes (01, "The record", "The packet").
ghost use Rattle.std.specs.Prelude.{◌+◌, ◌≤◌, eqb, length, ◌≡◌};
ghost use Rattle.record.specs.Parts.{PartIs, PacketIs, PacketAtIs, MagIs, ScienceIs, burst_at, has_burst, BurstIs};

use crate::Record;
use crate::frame::{Kind, kind_of};
use crate::rules::check;

// The n bytes from place `at` on, of bytes that are of the size named; of others an empty part, at their start, and no option: `PartIs`,
// `PacketIs` and `BurstIs` promise so, and C tells it by the size.
fn part<'a>(b: &'a [u8], size: usize, at: usize, n: usize) -> &'a [u8]
    requires { at + n ≤ size }
    ensures { PartIs (eqb (length b.now) size) at n b.now b.entry.ref_ptr result.now result.ref_ptr }
{
    if b.len() != size {
        return &b[..0];
    }
    &b[at..at + n]
}

// Bytes 286 to 453 of a record's 472, whatever they are. Of a record that passes they are its packet part, without a second look
// at the rules.
pub fn packet_in<'a>(r: &'a [u8]) -> &'a [u8]
    ensures { PacketAtIs r.now r.entry.ref_ptr result.now result.ref_ptr }
{
    part(r, Record::SIZE, Record::PACKET_AT, Record::PACKET_SIZE)
}

// The packet part: bytes 286 to 453, or an empty part where one of rules 2 to 11 fails.
pub fn packet<'a>(r: &'a [u8]) -> &'a [u8]
    ensures { PacketIs r.now r.entry.ref_ptr result.now result.ref_ptr }
{
    match check(r) {
        Ok(()) => packet_in(r),
        Err(_) => &r[..0],
    }
}

// The MAG bytes of a packet. As of the ER bytes, a promise of its own over `part`: one function for both would ask which.
pub fn mag_bytes<'a>(packet: &'a [u8]) -> &'a [u8]
    ensures { MagIs packet.now packet.entry.ref_ptr result.now result.ref_ptr }
{
    part(
        packet,
        Record::PACKET_SIZE,
        Record::MAG_AT,
        Record::MAG_SIZE,
    )
}

// The ER bytes of a packet.
pub fn science_bytes<'a>(packet: &'a [u8]) -> &'a [u8]
    ensures { ScienceIs packet.now packet.entry.ref_ptr result.now result.ref_ptr }
{
    part(
        packet,
        Record::PACKET_SIZE,
        Record::SCIENCE_AT,
        Record::SCIENCE_SIZE,
    )
}

// Has a frame of this kind a first burst packet, or a second?
fn has_burst(kind: Kind, second: bool) -> bool
    ensures { result ≡ has_burst kind second }
{
    if second {
        kind.carries_two()
    } else {
        kind.carries_burst()
    }
}

// Where a burst packet stands: the first of two where MAG would.
fn burst_at(kind: Kind, second: bool) -> usize
    ensures { result ≡ burst_at kind second }
{
    if second {
        return Record::SECOND_AT;
    }
    if kind.carries_two() {
        return Record::MAG_AT;
    }
    Record::SECOND_AT
}

// The bytes of a packet's first burst packet, or of its second; an empty part where it has none. `second` is a flag, as in `burst_bytes`,
// `has_burst` (record/Parts) and in all that stands on them, and C's `which`.
#[tactic(auto, using(crate::proofs::Types::burst_size_lem, crate::proofs::Types::burst_room))]
pub fn burst_bytes<'a>(packet: &'a [u8], second: bool) -> &'a [u8]
    ensures { BurstIs packet.now second packet.entry.ref_ptr result.now result.ref_ptr }
{
    let kind = kind_of(packet);
    if !has_burst(kind, second) {
        return &packet[..0];
    }
    let at = burst_at(kind, second);
    &packet[at..at + Record::BURST_SIZE]
}
