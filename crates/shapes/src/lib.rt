// What crosses to C as a struct, in C's layout: state, major frame, fields of a record, what a call closed, and the reports. Numbers
// and arrays stand as they are; a byte stands for a bool or an enum, and a byte with zeros for an option. What would be padding is a
// spare field, so that every byte of a struct belongs to its value: 0 in all that is handed out. include/lpmag.h asserts each size and
// place.
#![tactic(auto)]

mod closed;
mod fields;
mod frames;
mod states;

pub use closed::{CClosed, CClosedSnapshot, CFed, CReport};
pub use fields::CFields;
pub use frames::CMajor;
pub use states::{CAccumulation, CSnapshot, CState, is_state, state_in};
