// The fields of a record (01, "The record", "The packet").
ghost use Rattle.std.specs.Prelude.{◌≡◌};
ghost use Rattle.record.specs.Contents.{reading_of, record_of, ContentsIs};

use crate::frame::{kind_of, second_burst};
use crate::rules::{check_sized, sized};
use crate::signal::{Reading, level_of};
use crate::{Record, Refusal};

fn reading_of(r: &[u8; Record::SIZE]) -> Reading
    ensures { result ≡ reading_of r.now }
{
    Reading {
        level: level_of(bits::word32(r, Record::LEVEL_AT)),
        quality: level_of(bits::word32(r, Record::QUALITY_AT)),
    }
}

// The fields of a record of the right size, whatever else it holds.
fn record_of(r: &[u8; Record::SIZE]) -> Record
    ensures { result ≡ record_of r.now }
{
    let packet = &r[Record::PACKET_AT..Record::PACKET_END];
    let status = bits::word16(r, Record::STATUS_AT);
    let code = packet[Record::CODE_AT];
    let kind = kind_of(packet);
    let second = second_burst(kind, packet[Record::SECOND_CODE_AT]);
    Record {
        count: bits::word24(r, Record::COUNT_AT),
        day: bits::word16(r, Record::DAY_AT),
        millisecond: bits::word32(r, Record::MILLISECOND_AT),
        first_flag: (status / 16 % 4) as u8,
        second_flag: (status / 4 % 4) as u8,
        third_flag: (status % 4) as u8,
        frame_code: code,
        frame_type: code % 64,
        kind,
        second_code: second,
        subcom: bits::word16(packet, Record::SUBCOM_AT),
        reading: reading_of(r),
    }
}

// The fields of a record that passes rules 2 to 11, or the number of the first rule that fails and no fields.
pub fn fields(r: &[u8]) -> Result<Record, Refusal>
    ensures { ContentsIs r.now result }
{
    let r = sized(r)?;
    check_sized(r)?;
    Ok(record_of(r))
}
