// Which bytes of a snapshot each burst packet carries (000, section 2.4.1; 02, request 2). No function: the table, and its sizes.
#![tactic(auto)]

use record::Record;

// A snapshot: 20 packets, of types 36 to 55.
pub const SNAPSHOT: usize = 20 * Record::BURST_SIZE;

// Marks of the packets held, bit t - 36 for type t, are below it: from 2^20 on a mark past type 55 is set.
pub const PACKET_MARKS: u32 = 1048576;
