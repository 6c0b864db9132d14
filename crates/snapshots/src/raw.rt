// The raw bytes of a snapshot, where their packets are held.
ghost use Rattle.std.specs.Prelude.{◌≡◌, ◌<◌};
ghost use Rattle.bursts.specs.Bursts.{snapshot_size};
ghost use Rattle.snapshots.specs.Raw.{is_byte, holds_byte, ByteIs, MagAngleIs};

use bursts::{PACKET_MARKS, SNAPSHOT};
use cells::Missing;
use record::Record;

// The bytes of the two magnetic samples, and where they stand.
const MAG_ANGLES: usize = 4;

const MAG_ANGLES_AT: usize = 1564;

// A snapshot; `held` has bit t - 36 set when the packet of type t is held.
#[derive(Clone, Copy)]
pub struct Held<'a> {
    pub snapshot: &'a [u8],
    pub held: u32,
}

// As of an accumulation's cells (`Accumulated`), but for sizes, marks and what carries a place: what is answered is said once (`RawIs`).
impl Held<'_> {
    // Is there such a byte, and may it be asked for?
    fn has(self, place: usize) -> bool
        ensures { result ≡ is_byte self.entry.snapshot.now self.entry.held place }
    {
        self.snapshot.len() == SNAPSHOT && self.held < PACKET_MARKS && place < SNAPSHOT
    }

    // Is the packet held that carries it?
    fn holds(self, place: usize) -> bool
        requires { place < snapshot_size }
        ensures { result ≡ holds_byte self.entry.held place }
    {
        (self.held >> (place / Record::BURST_SIZE)) % 2 == 1
    }

    // Byte 0 to 1,639.
    pub fn byte(self, place: usize) -> Result<u8, Missing>
        ensures { ByteIs self.entry.snapshot.now self.entry.held place result }
    {
        if !self.has(place) {
            return Err(Missing::NoSuchPlace);
        }
        if !self.holds(place) {
            return Err(Missing::Absent);
        }
        Ok(self.snapshot[place])
    }

    // A byte of the magnetic samples: 0 is MagTh of the first, 1 its MagPhi, 2 and 3 those of the second.
    pub fn mag_angle(self, number: usize) -> Result<u8, Missing>
        ensures { MagAngleIs self.entry.snapshot.now self.entry.held number result }
    {
        if MAG_ANGLES <= number {
            return Err(Missing::NoSuchPlace);
        }
        self.byte(MAG_ANGLES_AT + number)
    }
}
