// Every question about a finished snapshot of a burst (02, request 2; 000, section 2.4.1).
#![tactic(auto)]

mod questions;
mod raw;

pub use raw::Held;
