// Questions about a finished major frame, for C; include/lpmag.h documents each function. Parameters are C's.
#![tactic(auto)]

ghost use Rattle.calls.specs.Frames.{WordGiven, SampleGiven, NominalGiven};

use shapes::CMajor;

#[unsafe(no_mangle)]
pub extern "C" fn lpmag_major_word(major: &CMajor, slot: usize, word: &mut u16) -> u8
    ensures { WordGiven major.now slot word.old result word.new }
{
    calls::word(*major, slot, word)
}

#[unsafe(no_mangle)]
pub extern "C" fn lpmag_major_sample(
    major: &CMajor,
    samples: &[i16],
    slot: usize,
    number: usize,
    sample: &mut i16,
) -> u8
    ensures { SampleGiven major.now samples.now slot number
        sample.old result sample.new }
{
    calls::sample(*major, samples, slot, number, sample)
}

#[unsafe(no_mangle)]
pub extern "C" fn lpmag_major_field(
    major: &CMajor,
    samples: &[i16],
    slot: usize,
    number: usize,
    field: &mut f32,
) -> u8
    ensures { NominalGiven major.now samples.now slot number
        field.old result field.new }
{
    calls::field(*major, samples, slot, number, field)
}
