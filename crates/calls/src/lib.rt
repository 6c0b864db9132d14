// What C calls with structs, by value: the reader's step, finish and feed, the fields of a record, the questions about a major frame.
// A struct that is lent to be written goes in too: a refusal hands it back as it came. What is handed back is a struct of the answer and
// of these, and no `Result`: the laws of `lent` are about such (`stepped`, `finished`, `feeding`, `contents` in proofs/Lents.antt).
#![tactic(auto)]

mod contents;
mod feeding;
mod frames;
mod stepping;

pub use contents::{CContents, fields};
pub use feeding::{CFeeding, feed};
pub use frames::{field, sample, word};
pub use stepping::{CFinished, CStepped, finish, step};
