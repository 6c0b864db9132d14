// The pre-scale state of an energy bin's samples (01, "Counts"; 000, section 2.3.1).
ghost use Rattle.std.specs.Prelude.{◌≡◌};
ghost use Rattle.electrons.specs.Questions.{scalable};
ghost use Rattle.electrons.specs.Inner.Places.{scale_of};

use cells::Accumulated;
use counts::Divided;

// The header byte that holds the state of the eight bands.
const STATE: usize = 1;

// Bins 6 and 9, high time resolution, and the cuts 10-14 are never pre-scaled.
fn can_scale(bin: usize) -> bool
    ensures { result ≡ scalable bin }
{
    matches!(bin, 0..=5 | 7 | 8)
}

// What a bin's counts were divided by; none where the header byte that would say so isn't held.
pub fn scale_of(of: Accumulated, bin: usize) -> Option<Divided>
    ensures { result ≡ scale_of of.entry.cells.now of.entry.held bin }
{
    if !can_scale(bin) {
        return Some(Divided::By1);
    }
    let bands = of.cell(STATE).ok()?;
    if (bands >> (bin / 2)) % 2 == 1 {
        Some(Divided::By8)
    } else {
        Some(Divided::By1)
    }
}
