// Counts from codes (01, "Counts"; 000, section 2.6).
#![tactic(auto)]

mod codes;
mod sums;

pub use codes::{Divided, NoDivisor, range_of};
pub use sums::add;

// Counts from low to high, both in it. 64 bits, so that the cells of many accumulations can be added.
#[derive(Clone, Copy, Debug, PartialEq, Eq)]
pub struct Range {
    pub low: u64,
    pub high: u64,
}
