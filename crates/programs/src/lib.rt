// What all programs share: their options, the files that they read, what they write, what they say of a failure, and the status
// that they end with. Standard output is data, standard error is talk.
#![tactic(auto)]

mod input;
mod options;
mod program;
mod status;

pub use input::Source;
pub use options::Options;
pub use program::Program;
pub use status::{Failed, Status};
