// The lines of the listing.
ghost use Rattle.std.specs.Prelude.{◌+◌, ◌*◌, ◌^◌, ◌<◌, ◌≤◌, length};
ghost use Rattle.std.specs.Int.Count.{ones};
ghost use Rattle.listing.specs.Text.{Written};
ghost use Rattle.listing.specs.Inner.Putting.{Puts};
ghost use Rattle.listing.specs.Lines.{header_size, header, word_size, line_size, line_of, major_line, accum_line, snap_line};
ghost use Rattle.listing.specs.Lines.{closed_size, closed_lines, refused_size, refused_line};

use crate::text::Page;
use crate::{CLOSED, HEADER, REFUSED};
use accumulation::AccumulationReport;
use buffers::has_room;
use major::Major;
use record::Record;
use snapshot::SnapshotReport;
use state::Closed;

// The first number of a major frame's line is 16 times its own, which has to fit 64 bits.
const NUMBERS: u64 = 1 << 60;

pub fn put_header(out: &mut [u8], at: usize) -> usize
    ensures { Written header_size header out.old at out.new result }
{
    if !has_room(out.len(), at, HEADER) {
        return at;
    }
    let mut page = Page {
        bytes: out,
        made: at,
    };
    page.text(b"kind first frames cells\n");
    page.made
}

// Each asks for room for one line: the public functions test for all of theirs at once, and nothing outside makes a page.
impl<'a> Page<'a> {
    #[tactic(auto, using(crate::proofs::Digits::length_decimal))]
    fn line(&mut self, word: &[u8], first: u64, frames: u64, cells: u64)
        requires word_len_bound { length word.now ≤ word_size }
        requires line_size_in_bounds { self.old.made + line_size ≤ length self.old.bytes.now }
        ensures { Puts self.old (line_of word.now first frames cells) self.new }
    {
        self.text(word);
        self.number(first);
        self.number(frames);
        self.number(cells);
        self.text(b"\n");
    }

    #[tactic(auto, using(crate::proofs::Puts::page_none), unfolding(crate::specs::Lines::major_line))]
    fn major(&mut self, report: Option<Major>)
        requires { self.old.made + line_size ≤ length self.old.bytes.now }
        ensures { Puts self.old (major_line report) self.new }
    {
        match report {
            Some(frame) if frame.number < NUMBERS => self.line(
                b"major",
                16 * frame.number,
                frame.slots.count_ones() as u64,
                mag::FRAME_SAMPLES as u64 * frame.mag_slots.count_ones() as u64,
            ),
            _ => {}
        }
    }

    // The line of an accumulation or a snapshot, whose reports are alike (02, request 2): its first count, how many it holds, and so
    // many cells for each.
    fn gathered(&mut self, word: &[u8], first: u64, held: u64, each: usize)
        requires word_len_bound { length word.now ≤ word_size }
        requires each_bound { each < 2 ^ 8 }
        requires line_size_in_bounds { self.old.made + line_size ≤ length self.old.bytes.now }
        ensures { Puts self.old (line_of word.now first (ones held) (each * ones held)) self.new }
    {
        let number = held.count_ones() as u64;
        self.line(word, first, number, each as u64 * number);
    }

    #[tactic(auto, using(crate::proofs::Puts::page_none), unfolding(crate::specs::Lines::accum_line))]
    fn accumulation(&mut self, report: Option<AccumulationReport>)
        requires { self.old.made + line_size ≤ length self.old.bytes.now }
        ensures { Puts self.old (accum_line report) self.new }
    {
        if let Some(a) = report {
            self.gathered(b"accum", a.first, a.held, Record::SCIENCE_SIZE);
        }
    }

    #[tactic(auto, using(crate::proofs::Puts::page_none), unfolding(crate::specs::Lines::snap_line))]
    fn snapshot(&mut self, report: Option<SnapshotReport>)
        requires { self.old.made + line_size ≤ length self.old.bytes.now }
        ensures { Puts self.old (snap_line report) self.new }
    {
        if let Some(s) = report {
            self.gathered(b"snap", s.first, s.held as u64, Record::BURST_SIZE);
        }
    }
}

// A line for each that closed: the major frame's first, then the accumulation's, then the snapshots' as they closed.
#[tactic(auto, using(crate::proofs::Closings::lengths))]
pub fn put_closed(closed: Closed, out: &mut [u8], at: usize) -> usize
    ensures { Written closed_size (closed_lines closed) out.old at out.new result }
{
    if !has_room(out.len(), at, CLOSED) {
        return at;
    }
    let mut page = Page {
        bytes: out,
        made: at,
    };
    page.major(closed.major);
    page.accumulation(closed.accumulation);
    page.snapshot(closed.first_snapshot);
    page.snapshot(closed.second_snapshot);
    page.made
}

#[tactic(auto, using(crate::proofs::Digits::length_decimal))]
pub fn put_refused(refused: u64, out: &mut [u8], at: usize) -> usize
    ensures { Written refused_size (refused_line refused) out.old at out.new result }
{
    if !has_room(out.len(), at, REFUSED) {
        return at;
    }
    let mut page = Page {
        bytes: out,
        made: at,
    };
    page.text(b"refused");
    page.number(refused);
    page.text(b"\n");
    page.made
}
