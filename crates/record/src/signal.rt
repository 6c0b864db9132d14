// Signal level and signal quality, IEEE single precision: a finite reading, or the 32 bits of one that isn't.
ghost use Rattle.std.specs.Prelude.{◌≡◌};
ghost use Rattle.record.specs.Signal.{LevelIs, bits_of};

// 01, "Which shape goes where": an enum of a finite case and one that carries raw bits.
#[derive(Clone, Copy, Debug)]
pub enum Level {
    Finite(f32),
    NotFinite(u32),
}

// Level and quality travel together (01, "The record").
#[derive(Clone, Copy, Debug)]
pub struct Reading {
    pub level: Level,
    pub quality: Level,
}

// Chosen by the exponent field: all ones is an infinity or no number.
#[tactic(auto, using(crate::proofs::Kept::level_read), unfolding(crate::specs::Signal::level_of, crate::specs::Signal::bits_of))]
pub fn level_of(bits: u32) -> Level
    ensures { LevelIs bits result }
{
    if bits / 8388608 % 256 == 255 {
        Level::NotFinite(bits)
    } else {
        Level::Finite(f32::from_bits(bits))
    }
}

// The 32 bits of a level: named, with `level_of`, as f32's own pair `to_bits` and `from_bits`. A `Finite` that holds no number, which
// `level_of` never gives, has the bits 7FC00000.
#[tactic(auto, using(crate::proofs::Kept::equal_number, crate::proofs::Kept::unequal_bits), unfolding(crate::specs::Signal::bits_of))]
pub fn bits_of(level: Level) -> u32
    ensures { result ≡ bits_of level }
{
    match level {
        Level::Finite(x) if x == x => x.to_bits(),
        Level::Finite(_) => 0x7fc00000,
        Level::NotFinite(b) => b,
    }
}
