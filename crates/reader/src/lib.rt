// The reader: one record in, one answer out, seven lent buffers, the state by value (01, "Joining accumulations", "Numbers a refused
// record gets"). What is decided comes from the state room; here it is done to the buffers.
#![tactic(auto)]

mod cells_part;
mod lent;
mod moving;
mod samples_part;
mod snapshot_part;
mod steps;

pub use lent::{Lent, right_sizes};
pub use steps::{finish, step};
