// The range of a code (01, "Counts"; 000, section 2.6).
ghost use Rattle.std.specs.Prelude.{◌≡◌};
ghost use Rattle.counts.specs.Codes.{code_low, code_high, divisor, DividedIs, range_of};

use crate::Range;

// What the counts were divided by before they were compressed: pre-scaled samples by 8, Total and Rate by 16.
#[derive(Clone, Copy, Debug, PartialEq, Eq)]
pub enum Divided {
    By1,
    By8,
    By16,
}

// No counts were divided by such a number.
#[derive(Clone, Copy, Debug, PartialEq, Eq)]
pub struct NoDivisor;

impl From<Divided> for u64 {
    ghost from_gives = { λ d n. n ≡ divisor d };

    #[tactic(auto, unfolding(crate::specs::Codes::divisor))]
    fn from(divided: Divided) -> u64 {
        match divided {
            Divided::By1 => 1,
            Divided::By8 => 8,
            Divided::By16 => 16,
        }
    }
}

impl TryFrom<u8> for Divided {
    type Error = NoDivisor;

    ghost try_from_gives = { λ n r. DividedIs n r };

    #[tactic(auto, using(crate::proofs::Ranges::no_divisor), unfolding(crate::specs::Codes::divisor))]
    fn try_from(number: u8) -> Result<Divided, NoDivisor> {
        match number {
            1 => Ok(Divided::By1),
            8 => Ok(Divided::By8),
            16 => Ok(Divided::By16),
            _ => Err(NoDivisor),
        }
    }
}

// A 4-bit exponent over a 4-bit mantissa with a hidden bit; the bits not sent were cut off.
#[tactic(auto, using(crate::proofs::EachCode::ends))]
fn undivided(code: u8) -> Range
    ensures { (result.low ≡ code_low code) × (result.high ≡ code_high code) }
{
    let mantissa = (code % 16) as u64;
    let exponent = code / 16;
    if exponent == 0 {
        return Range {
            low: mantissa,
            high: mantissa,
        };
    }
    Range {
        low: (16 + mantissa) << (exponent - 1),
        high: ((17 + mantissa) << (exponent - 1)) - 1,
    }
}

// The counts that a code stands for.
#[tactic(auto, using(crate::proofs::Ranges::products), unfolding(crate::specs::Codes::range_of))]
pub fn range_of(code: u8, divided: Divided) -> Range
    ensures { result ≡ range_of code divided }
{
    let r = undivided(code);
    let n = u64::from(divided);
    Range {
        low: n * r.low,
        high: n * r.high + (n - 1),
    }
}
