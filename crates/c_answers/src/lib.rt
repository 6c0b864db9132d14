// What the rooms for C share: the numbers of their answers, and how values and ranges are handed out. Nothing is exported from here.
#![tactic(auto)]

ghost use Rattle.std.specs.Prelude.{◌≡◌, true};
ghost use Rattle.electrons.specs.Questions.{unknown_said};
ghost use Rattle.c_answers.specs.Answers.{words_number, RangeGiven};
ghost use Rattle.c_answers.specs.Handing.{Handed, CountHanded};

use cells::Missing;
use counts::Range;
use electrons::Unknown;

// LPMAG_NO_SUCH_PLACE, LPMAG_ABSENT, LPMAG_SCALE_UNKNOWN, LPMAG_TOO_LARGE, LPMAG_NO_SUCH_BIN: above every refusal's number and every
// value that a function answers in a byte. Numbers, as include/lpmag.h has them.
pub const NO_SUCH_PLACE: u8 = 128;

pub const ABSENT: u8 = 129;

pub const SCALE_UNKNOWN: u8 = 130;

pub const TOO_LARGE: u8 = 131;

pub const NO_SUCH_BIN: u8 = 132;

// The number of the words of an answer that gives nothing.
#[tactic(auto, unfolding(crate::specs::Answers::words_number))]
fn number_of(why: Unknown) -> u8
    ensures { result ≡ words_number (unknown_said why) }
{
    match why {
        Unknown::ScaleUnknown => SCALE_UNKNOWN,
        Unknown::Absent => ABSENT,
        Unknown::NoSuchPlace => NO_SUCH_PLACE,
    }
}

// A value goes to the place lent for it; or the number of the words that there are for none.
#[tactic(auto, unfolding(crate::specs::Answers::words_number, cells::specs::Words::answer_said))]
pub fn hand<T: Copy>(answer: Result<T, Missing>, place: &mut T) -> u8
    ensures { Handed answer place.old result place.new }
{
    match answer {
        Ok(value) => {
            *place = value;
            0
        }
        Err(why) => number_of(Unknown::from(why)),
    }
}

// A range goes to the two numbers lent for it: two, since C lends them so.
pub fn give(r: Range, low: &mut u64, high: &mut u64) -> u8
    ensures { RangeGiven true 0 r low.old high.old result low.new high.new }
{
    *low = r.low;
    *high = r.high;
    0
}

// The range of an answer, or the number of its words.
#[tactic(auto, unfolding(crate::specs::Answers::words_number, electrons::specs::Questions::count_said))]
pub fn hand_count(answer: Result<Range, Unknown>, low: &mut u64, high: &mut u64) -> u8
    ensures { CountHanded answer low.old high.old result low.new high.new }
{
    match answer {
        Ok(r) => give(r, low, high),
        Err(why) => number_of(why),
    }
}
