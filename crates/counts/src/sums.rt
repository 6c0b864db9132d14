// The sum of two ranges.
ghost use Rattle.counts.specs.Sums.{SumIs};

use crate::Range;

// Lows and highs added; none where either is past 64 bits.
#[tactic(auto, unfolding(crate::specs::Sums::fits64))]
pub fn add(a: Range, b: Range) -> Option<Range>
    ensures { SumIs a b result }
{
    Some(Range {
        low: a.low.checked_add(b.low)?,
        high: a.high.checked_add(b.high)?,
    })
}
