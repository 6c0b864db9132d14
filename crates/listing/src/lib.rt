// The lines of the listing (01, "The listing, whole"), and what is said of a refused record: bytes put into a lent buffer from a
// place on. Each function answers where they end. It writes only where the longest line of its kind would still fit; else the
// buffer stays as found, and the answer is the place where it was to begin. Buffer and place are two parameters, and the answer is a place and no
// option: `Written` answers for every place and every size.
#![tactic(auto)]

mod decimal;
mod lines;
mod refusals;
mod text;

pub use lines::{put_closed, put_header, put_refused};
pub use refusals::{put_meaning, put_refusal};

// The bytes of the header line.
pub const HEADER: usize = 24;

// The most bytes of what one record closes: a line for each of up to four, of a word of up to five letters, three numbers of up to 20
// digits, a space before each, and the line's end.
pub const CLOSED: usize = 276;

// The most bytes of the last line.
pub const REFUSED: usize = 29;

// The most bytes of the line about a refused record.
pub const REFUSAL: usize = 161;

// Room for the words of any number, and more than they need.
pub const MEANING: usize = 80;
