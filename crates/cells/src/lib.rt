// The lent cells of an accumulation: a frame laid into them, and the byte of a cell (01, "ER cells").
#![tactic(auto)]

mod laying;
mod missing;
mod raw;

use carriage::CELLS;
pub use laying::{NoSuchPlace, lay};
pub use missing::Missing;
pub use raw::Accumulated;

// The cells, then the 9 bytes of top bit pairs.
pub const CELLS_SIZE: usize = CELLS + 9;
