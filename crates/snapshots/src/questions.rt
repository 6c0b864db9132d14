// The counts of a snapshot: 3D, pitch angle, Total and Rate. None is pre-scaled: 000, section 2.4.1, "the pre-scale bits are not useful".
ghost use Rattle.std.specs.Prelude.{◌≡◌, ◌≤◌};
ghost use Rattle.electrons.specs.Questions.{CountIs, total_cell, rate_cell};
ghost use Rattle.snapshots.specs.Questions.{three_asked, pitch_asked, header_asked};
ghost use Rattle.snapshots.specs.Inner.Places.{angle_place, counted_at};

use crate::Held;
use counts::{Divided, Range};
use electrons::{Unknown, meaning_of};

// An angle of an energy step, where the 15 steps, of `angles` angles each, begin at `at`.
fn angle_place(at: usize, angles: usize, step: usize, angle: usize) -> Option<usize>
    requires { (at ≤ 1324) × (angles ≤ 88) }
    ensures { result ≡ angle_place at angles step angle }
{
    if 14 < step || angles <= angle {
        return None;
    }
    Some(at + angles * step + angle)
}

// A question each, as the definitions and C have them.
impl Held<'_> {
    // What the byte at a place means.
    fn count_at(self, place: usize, divided: Divided) -> Result<Range, Unknown>
        ensures { result ≡ counted_at self.entry.snapshot.now self.entry.held place divided }
    {
        meaning_of(self.byte(place), Some(divided))
    }

    // A 3D count: energy step 0 to 14, angle 0 to 87.
    pub fn three_d(self, step: usize, angle: usize) -> Result<Range, Unknown>
        ensures { CountIs (three_asked self.entry.snapshot.now self.entry.held step angle) result }
    {
        let place = angle_place(4, 88, step, angle).ok_or(Unknown::NoSuchPlace)?;
        self.count_at(place, Divided::By1)
    }

    // A count of the pitch angle data: energy 0 to 14, angle 0 to 15.
    pub fn pitch(self, energy: usize, angle: usize) -> Result<Range, Unknown>
        ensures { CountIs (pitch_asked self.entry.snapshot.now self.entry.held energy angle) result }
    {
        let place = angle_place(1324, 16, energy, angle).ok_or(Unknown::NoSuchPlace)?;
        self.count_at(place, Divided::By1)
    }

    // Total Counts, header byte 2.
    pub fn total(self) -> Result<Range, Unknown>
        ensures { CountIs (header_asked total_cell self.entry.snapshot.now self.entry.held) result }
    {
        self.count_at(2, Divided::By16)
    }

    // The Rate Counter, header byte 3.
    pub fn rate(self) -> Result<Range, Unknown>
        ensures { CountIs (header_asked rate_cell self.entry.snapshot.now self.entry.held) result }
    {
        self.count_at(3, Divided::By16)
    }
}
