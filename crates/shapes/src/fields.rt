// The fields of a record as C has them.
ghost use Rattle.std.specs.Prelude.{◌≡◌};
ghost use Rattle.shapes.specs.Fields.{finite_mark, fields_out};

use record::{Level, Record};

// Level and quality are their 32 bits, with a mark that says whether they are a number.
#[repr(C)]
#[derive(Clone, Copy, Debug, PartialEq, Eq)]
pub struct CFields {
    pub count: u32,
    pub millisecond: u32,
    pub level: u32,
    pub quality: u32,
    pub day: u16,
    pub subcom: u16,
    pub first_flag: u8,
    pub second_flag: u8,
    pub third_flag: u8,
    pub frame_code: u8,
    pub frame_type: u8,
    pub kind: u8,
    pub level_finite: u8,
    pub quality_finite: u8,
    pub second_code: u8,
    pub spare8: u8,
    pub spare16: u16,
}

// C's mark, which is a byte (`CFields`); the definition `finite_mark` has its numbers.
#[tactic(auto, unfolding(crate::specs::Fields::finite_mark))]
fn mark_of(level: Level) -> u8
    ensures { result ≡ finite_mark level }
{
    match level {
        Level::Finite(_) => 1,
        Level::NotFinite(_) => 0,
    }
}

impl From<Record> for CFields {
    ghost from_gives = { λ f c. c ≡ fields_out f };

    fn from(f: Record) -> CFields {
        CFields {
            count: f.count,
            millisecond: f.millisecond,
            level: record::bits_of(f.reading.level),
            quality: record::bits_of(f.reading.quality),
            day: f.day,
            subcom: f.subcom,
            first_flag: f.first_flag,
            second_flag: f.second_flag,
            third_flag: f.third_flag,
            frame_code: f.frame_code,
            frame_type: f.frame_type,
            kind: f.kind.number(),
            level_finite: mark_of(f.reading.level),
            quality_finite: mark_of(f.reading.quality),
            second_code: f.second_code,
            spare8: 0,
            spare16: 0,
        }
    }
}
