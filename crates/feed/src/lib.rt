// Bytes of the merged file fed to the reader: cut into records, and taken one after another until one has something to tell.
#![tactic(auto)]

mod cutting;
mod feeding;

pub use cutting::{cut, is_whole, keep_rest};
pub use feeding::{Fed, feed, feed_one};
