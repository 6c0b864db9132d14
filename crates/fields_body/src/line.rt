// What is printed of one record.
use record::{Kind, Level, Record, Refusal};
use std::fmt;

// The line of a record: its number, and its fields or the number of the first rule that it breaks.
#[derive(Drop)]
pub(crate) struct Line {
    pub number: u64,
    pub fields: Result<Record, Refusal>,
}

impl fmt::Display for Line {
    fn fmt<W: fmt::Write>(&self, f: &mut fmt::Formatter<W>) -> fmt::Result {
        let number = self.number;
        match &self.fields {
            Ok(record) => write!(f, "{number} passes {}", Fields(record)),
            Err(refusal) => write!(f, "{number} refused {}", refusal.number()),
        }
    }
}

// The fields, a space between two; the three flags are one word.
#[derive(Drop)]
struct Fields<'a>(&'a Record);

impl fmt::Display for Fields<'_> {
    fn fmt<W: fmt::Write>(&self, f: &mut fmt::Formatter<W>) -> fmt::Result {
        let Record {
            count,
            day,
            millisecond,
            first_flag,
            second_flag,
            third_flag,
            frame_code,
            frame_type,
            kind,
            second_code,
            subcom,
            reading,
        } = *self.0;
        write!(
            f,
            "{count} {day} {millisecond} {first_flag}{second_flag}{third_flag}"
        )?;
        write!(
            f,
            " {frame_code} {frame_type} {} {second_code} {subcom}",
            kind_name(kind)
        )?;
        write!(f, " {} {}", Bits(reading.level), Bits(reading.quality))
    }
}

// A word for each kind, no `Display` of `Kind`: the words are this program's, the type is `record`'s.
fn kind_name(kind: Kind) -> &'static str {
    match kind {
        Kind::RealTime(_) => "real-time",
        Kind::HalfBurst => "half-burst",
        Kind::FullBurst => "full-burst",
        Kind::Other => "other",
        Kind::Undefined => "undefined",
    }
}

// Is it a finite number, and its 32 bits as eight hexadecimal digits.
#[derive(Drop)]
struct Bits(Level);

impl fmt::Display for Bits {
    fn fmt<W: fmt::Write>(&self, f: &mut fmt::Formatter<W>) -> fmt::Result {
        let level = self.0;
        let bits = record::bits_of(level);
        match level {
            Level::Finite(_) => write!(f, "finite:{bits:08x}"),
            Level::NotFinite(_) => write!(f, "not-finite:{bits:08x}"),
        }
    }
}
