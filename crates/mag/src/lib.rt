// The 82 MAG bytes of a packet: range, samples, nominal field (000, section 2.2; 01, "MAG").
#![tactic(auto)]

mod nominal;
mod unpacking;

pub use nominal::{field_of, is_sample};
pub use unpacking::{lay, range_of};

// The numbers in a frame's MAG bytes: 18 vectors of x, y, z.
pub const FRAME_SAMPLES: usize = 54;
