// A major frame as C has it.
ghost use Rattle.std.specs.Prelude.{◌≡◌};
ghost use Rattle.shapes.specs.Frames.{major_in, major_out};

use major::{Major, SLOTS};

// Words and ranges side by side: C's layout.
#[repr(C)]
#[derive(Clone, Copy, Debug, PartialEq, Eq)]
pub struct CMajor {
    pub number: u64,
    pub words: [u16; SLOTS],
    pub ranges: [u8; SLOTS],
    pub slots: u16,
    pub mag_slots: u16,
    pub spare32: u32,
}

// The major frame of C's struct, whose spare field isn't looked at.
impl From<CMajor> for Major {
    ghost from_gives = { λ c m. m ≡ major_in c };

    fn from(c: CMajor) -> Major {
        let CMajor {
            number,
            words,
            ranges,
            slots,
            mag_slots,
            ..
        } = c;
        Major {
            number,
            words,
            ranges,
            slots,
            mag_slots,
        }
    }
}

impl From<Major> for CMajor {
    ghost from_gives = { λ m c. c ≡ major_out m };

    fn from(m: Major) -> CMajor {
        let Major {
            number,
            words,
            ranges,
            slots,
            mag_slots,
        } = m;
        CMajor {
            number,
            words,
            ranges,
            slots,
            mag_slots,
            spare32: 0,
        }
    }
}
