// The questions, and what a raw cell means (01, "Counts"). Bin, number and angle are C's parameters and the definitions' coordinates.
ghost use Rattle.std.specs.Prelude.{◌≡◌, ◌<◌};
ghost use Rattle.electrons.specs.Meaning.{unknown_of, meaning};
ghost use Rattle.electrons.specs.Questions.{CountIs, total_cell, rate_cell, sample_asked, three_asked, header_asked};

use crate::places::{sample_place, three_place};
use crate::scale::scale_of;
use cells::{Accumulated, Missing};
use counts::{Divided, Range};

// Why no counts can be said.
#[derive(Clone, Copy, Debug, PartialEq, Eq)]
pub enum Unknown {
    ScaleUnknown,
    Absent,
    NoSuchPlace,
}

impl From<Missing> for Unknown {
    ghost from_gives = { λ m u. u ≡ unknown_of m };

    fn from(missing: Missing) -> Unknown {
        match missing {
            Missing::Absent => Unknown::Absent,
            Missing::NoSuchPlace => Unknown::NoSuchPlace,
        }
    }
}

// What a raw byte means, of an accumulation or of a snapshot, by what it was divided by, where that is known.
pub fn meaning_of(raw: Result<u8, Missing>, scale: Option<Divided>) -> Result<Range, Unknown>
    ensures { result ≡ meaning raw scale }
{
    let code = raw?;
    let divided = scale.ok_or(Unknown::ScaleUnknown)?;
    Ok(counts::range_of(code, divided))
}

// A sample at one of its 16 angles.
pub fn sample(of: Accumulated, bin: usize, number: usize, angle: usize) -> Result<Range, Unknown>
    ensures { CountIs (sample_asked of.entry.cells.now of.entry.held bin number angle) result }
{
    let place = sample_place(bin, number, angle).ok_or(Unknown::NoSuchPlace)?;
    meaning_of(of.cell(place), scale_of(of, bin))
}

// A 3D count.
pub fn three_d(of: Accumulated, step: usize, angle: usize) -> Result<Range, Unknown>
    ensures { CountIs (three_asked of.entry.cells.now of.entry.held step angle) result }
{
    let place = three_place(step, angle).ok_or(Unknown::NoSuchPlace)?;
    meaning_of(of.cell(place), Some(Divided::By1))
}

// A count of the header: both were divided by 16.
fn header_count(of: Accumulated, p: usize) -> Result<Range, Unknown>
    requires { p < 4 }
    ensures { CountIs (header_asked p of.entry.cells.now of.entry.held) result }
{
    meaning_of(of.cell(p), Some(Divided::By16))
}

// Total Counts of the first half-spin, header byte 2.
pub fn total(of: Accumulated) -> Result<Range, Unknown>
    ensures { CountIs (header_asked total_cell of.entry.cells.now of.entry.held) result }
{
    header_count(of, 2)
}

// The Rate Counter of the first half-spin, header byte 3.
pub fn rate(of: Accumulated) -> Result<Range, Unknown>
    ensures { CountIs (header_asked rate_cell of.entry.cells.now of.entry.held) result }
{
    header_count(of, 3)
}
