// Every question about the counts of an accumulation (01, "Counts").
#![tactic(auto)]

mod places;
mod questions;
mod scale;

pub use places::{samples_in, samples_of};
pub use questions::{Unknown, meaning_of, rate, sample, three_d, total};
