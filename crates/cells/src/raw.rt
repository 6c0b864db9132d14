// The byte of a cell, where its frame is held.
ghost use Rattle.std.specs.Prelude.{◌≡◌};
ghost use Rattle.cells.specs.Raw.{is_cell, holds_cell, CellIs};

use crate::{CELLS_SIZE, Missing};
use carriage::CELLS;
use record::FRAME_MARKS;

// The cells of an accumulation; `held` has bit u set when the frame of type u is held.
#[derive(Clone, Copy)]
pub struct Accumulated<'a> {
    pub cells: &'a [u8],
    pub held: u64,
}

impl Accumulated<'_> {
    // Is there a cell p, and may it be asked for?
    fn has(self, p: usize) -> bool
        ensures { result ≡ is_cell self.entry.cells.now self.entry.held p }
    {
        self.cells.len() == CELLS_SIZE && self.held < FRAME_MARKS && p < CELLS
    }

    // Is the frame held that carries cell p?
    #[tactic(auto, using(carriage::proofs::EachCell::carrier_small))]
    fn holds_cell(self, p: usize) -> bool
        ensures { result ≡ holds_cell self.entry.held p }
    {
        (self.held >> carriage::carrier_of(p)) % 2 == 1
    }

    // Cell p, 0 to 2,987.
    pub fn cell(self, p: usize) -> Result<u8, Missing>
        ensures { CellIs self.entry.cells.now self.entry.held p result }
    {
        if !self.has(p) {
            return Err(Missing::NoSuchPlace);
        }
        if !self.holds_cell(p) {
            return Err(Missing::Absent);
        }
        Ok(self.cells[p])
    }
}
