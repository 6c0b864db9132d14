// Which type carries which cells (000, section 2.3; 01, "ER cells").
#![tactic(auto)]

mod carriers;
mod row_numbers;

pub use carriers::carrier_of;
pub use row_numbers::{Numbers, numbers_of};

// Header, samples and 3D: so many cells in all; and the first 3D cell.
pub const CELLS: usize = 2988;

pub const THREE_D_AT: usize = 1668;
