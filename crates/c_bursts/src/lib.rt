// The questions about a finished snapshot, and about a burst's MAG, for C; include/lpmag.h documents each function. Parameters are C's.
#![tactic(auto)]

ghost use Rattle.std.specs.Prelude.{◌≡◌, unwrap_or};
ghost use Rattle.electrons.specs.Questions.{total_cell, rate_cell};
ghost use Rattle.snapshots.specs.Questions.{three_asked, pitch_asked, header_asked};
ghost use Rattle.c_answers.specs.Answers.{AskedGiven, nowhere};
ghost use Rattle.c_bursts.specs.Bursts.{ByteGiven, MagAngleGiven};
ghost use Rattle.c_bursts.specs.Seconds.{burst_range, BurstSamplesGiven};

use c_answers::{NO_SUCH_PLACE, hand, hand_count};
use snapshots::Held;

#[unsafe(no_mangle)]
pub extern "C" fn lpmag_snapshot_byte(snapshot: &[u8], held: u32, place: usize, byte: &mut u8) -> u8
    ensures { ByteGiven snapshot.now held place byte.old result byte.new }
{
    hand(Held { snapshot, held }.byte(place), byte)
}

#[unsafe(no_mangle)]
pub extern "C" fn lpmag_snapshot_three_d(
    snapshot: &[u8],
    held: u32,
    step: usize,
    angle: usize,
    low: &mut u64,
    high: &mut u64,
) -> u8
    ensures { AskedGiven (three_asked snapshot.now held step angle)
        low.old high.old result low.new high.new }
{
    hand_count(Held { snapshot, held }.three_d(step, angle), low, high)
}

#[unsafe(no_mangle)]
pub extern "C" fn lpmag_snapshot_pitch(
    snapshot: &[u8],
    held: u32,
    energy: usize,
    angle: usize,
    low: &mut u64,
    high: &mut u64,
) -> u8
    ensures { AskedGiven (pitch_asked snapshot.now held energy angle)
        low.old high.old result low.new high.new }
{
    hand_count(Held { snapshot, held }.pitch(energy, angle), low, high)
}

#[unsafe(no_mangle)]
pub extern "C" fn lpmag_snapshot_total(
    snapshot: &[u8],
    held: u32,
    low: &mut u64,
    high: &mut u64,
) -> u8
    ensures { AskedGiven (header_asked total_cell snapshot.now held)
        low.old high.old result low.new high.new }
{
    hand_count(Held { snapshot, held }.total(), low, high)
}

#[unsafe(no_mangle)]
pub extern "C" fn lpmag_snapshot_rate(
    snapshot: &[u8],
    held: u32,
    low: &mut u64,
    high: &mut u64,
) -> u8
    ensures { AskedGiven (header_asked rate_cell snapshot.now held)
        low.old high.old result low.new high.new }
{
    hand_count(Held { snapshot, held }.rate(), low, high)
}

#[unsafe(no_mangle)]
pub extern "C" fn lpmag_snapshot_angle(
    snapshot: &[u8],
    held: u32,
    number: usize,
    angle: &mut u8,
) -> u8
    ensures { MagAngleGiven snapshot.now held number angle.old result angle.new }
{
    hand(Held { snapshot, held }.mag_angle(number), angle)
}

// The range of an answer, or the number of its words.
fn hand_range(answer: Option<u8>) -> u8
    ensures { result ≡ unwrap_or answer nowhere }
{
    answer.unwrap_or(NO_SUCH_PLACE)
}

#[unsafe(no_mangle)]
pub extern "C" fn lpmag_burst_range(r: &[u8], which: u8) -> u8
    ensures { result ≡ burst_range r.now which }
{
    if which > 1 {
        return NO_SUCH_PLACE;
    }
    hand_range(burst_mag::range(r, which == 1))
}

#[unsafe(no_mangle)]
pub extern "C" fn lpmag_burst_samples(r: &[u8], which: u8, room: &mut [i16]) -> u8
    ensures { BurstSamplesGiven r.now which room.old result room.new }
{
    if which > 1 {
        return NO_SUCH_PLACE;
    }
    hand_range(burst_mag::samples(r, which == 1, room))
}
