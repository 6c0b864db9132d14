// Questions about a finished major frame. Each answers with C's number and writes to what C lent: no `Result`, as the promises (`WordGiven`
// and its like) are those of the exports.
ghost use Rattle.calls.specs.Frames.{WordGiven, SampleGiven, NominalGiven};

use c_answers::hand;
use major::Major;
use majors::{Finished, word_of};
use shapes::CMajor;

#[tactic(auto, using(crate::proofs::Asked::word_told))]
pub fn word(major: CMajor, slot: usize, word: &mut u16) -> u8
    ensures { WordGiven major slot word.old result word.new }
{
    hand(word_of(Major::from(major), slot), word)
}

// As `field` but for the promise and C's parameter: `SampleGiven`, `NominalGiven`.
#[tactic(auto, using(crate::proofs::Asked::sample_told))]
pub fn sample(major: CMajor, samples: &[i16], slot: usize, number: usize, sample: &mut i16) -> u8
    ensures { SampleGiven major samples.now slot number sample.old result sample.new }
{
    let finished = Finished {
        frame: Major::from(major),
        samples,
    };
    hand(finished.sample(slot, number), sample)
}

pub fn field(major: CMajor, samples: &[i16], slot: usize, number: usize, field: &mut f32) -> u8
    ensures { NominalGiven major samples.now slot number field.old result field.new }
{
    let finished = Finished {
        frame: Major::from(major),
        samples,
    };
    hand(finished.field(slot, number), field)
}
