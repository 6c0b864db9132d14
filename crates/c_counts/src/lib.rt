// Count ranges and angles, for C; include/lpmag.h documents each function. Parameters are C's.
#![tactic(auto)]

ghost use Rattle.std.specs.Prelude.{◌≡◌};
ghost use Rattle.counts.specs.Codes.{times};
ghost use Rattle.counts.specs.Sums.{fits64};
ghost use Rattle.c_answers.specs.Answers.{nowhere, too_large, RangeGiven};
ghost use Rattle.c_counts.specs.Counts.{is_divisor, sum_of, angle_number};

use c_answers::{NO_SUCH_BIN, NO_SUCH_PLACE, TOO_LARGE, give};
use counts::{Divided, NoDivisor, Range};

#[unsafe(no_mangle)]
pub extern "C" fn lpmag_count_range(code: u8, divided_by: u8, low: &mut u64, high: &mut u64) -> u8
    ensures { RangeGiven (is_divisor divided_by) nowhere (times divided_by code)
        low.old high.old result low.new high.new }
{
    match Divided::try_from(divided_by) {
        Ok(divided) => give(counts::range_of(code, divided), low, high),
        Err(NoDivisor) => NO_SUCH_PLACE,
    }
}

#[unsafe(no_mangle)]
pub extern "C" fn lpmag_count_sum(
    low_a: u64,
    high_a: u64,
    low_b: u64,
    high_b: u64,
    low: &mut u64,
    high: &mut u64,
) -> u8
    ensures { RangeGiven (fits64 (sum_of low_a high_a low_b high_b)) too_large (sum_of low_a high_a low_b high_b)
        low.old high.old result low.new high.new }
{
    let a = Range {
        low: low_a,
        high: high_a,
    };
    let b = Range {
        low: low_b,
        high: high_b,
    };
    match counts::add(a, b) {
        Some(sum) => give(sum, low, high),
        None => TOO_LARGE,
    }
}

#[unsafe(no_mangle)]
pub extern "C" fn lpmag_angle(anode: usize, phase: usize) -> u8
    ensures { result ≡ angle_number anode phase }
{
    angles::angle_of(anode, phase).unwrap_or(NO_SUCH_BIN)
}
