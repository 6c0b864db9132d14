// Numbers in bytes, read and written: words and signed 16-bit numbers most significant byte first, and 12-bit numbers in either order
// of the bits. A number that does not lie wholly in the bytes is read as 0; a room in which it doesn't lie wholly stays as found: so bytes and
// a place in them are handed in, and no part of them, which would have to lie in them.
#![tactic(auto)]

mod order;
mod pairs;
mod putting;
mod signed;
mod twelve_bits;
mod words;

pub use order::Order;
pub use pairs::put_pair;
pub use putting::{put16, put24, put32, put64};
pub use signed::{put_signed16, signed16};
pub use twelve_bits::twelve;
pub use words::{word16, word24, word32, word64};
