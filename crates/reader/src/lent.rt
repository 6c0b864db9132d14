// The seven lent buffers (01, "Joining accumulations"; 02, request 2).
ghost use Rattle.std.specs.Prelude.{◌≡◌};
ghost use Rattle.reader.specs.Buffers.{sized_by, sized};
ghost use Rattle.reader.specs.Lent.{held};

use bursts::SNAPSHOT;
use cells::CELLS_SIZE;
use major::MAJOR_SAMPLES;

// The caller's own memory, of any sizes.
#[derive(Drop)]
pub struct Lent<'a> {
    pub open_cells: &'a mut [u8],
    pub finished_cells: &'a mut [u8],
    pub open_samples: &'a mut [i16],
    pub finished_samples: &'a mut [i16],
    pub open_snapshot: &'a mut [u8],
    pub first_snapshot: &'a mut [u8],
    pub second_snapshot: &'a mut [u8],
}

// Are the seven buffers, of so many elements, each of its size? Numbers alone: it can be asked before anything is lent.
#[tactic(auto, unfolding(crate::specs::Buffers::sized_by))]
pub fn right_sizes(
    open_cells: usize,
    finished_cells: usize,
    open_samples: usize,
    finished_samples: usize,
    open_snapshot: usize,
    first_snapshot: usize,
    second_snapshot: usize,
) -> bool
    ensures { result ≡ sized_by open_cells finished_cells open_samples finished_samples
        open_snapshot first_snapshot second_snapshot }
{
    open_cells == CELLS_SIZE
        && finished_cells == CELLS_SIZE
        && open_samples == MAJOR_SAMPLES
        && finished_samples == MAJOR_SAMPLES
        && open_snapshot == SNAPSHOT
        && first_snapshot == SNAPSHOT
        && second_snapshot == SNAPSHOT
}

impl Lent<'_> {
    // Is each of its size?
    pub fn is_sized(&self) -> bool
        ensures { result ≡ sized (held self.now) }
    {
        right_sizes(
            self.open_cells.len(),
            self.finished_cells.len(),
            self.open_samples.len(),
            self.finished_samples.len(),
            self.open_snapshot.len(),
            self.first_snapshot.len(),
            self.second_snapshot.len(),
        )
    }
}
