// What an inspection prints: what the frame checks say of a record, its line, the lines of a buffer's records and the ending.
#![tactic(auto)]

mod lines;
mod scanning;
mod turns;

pub use lines::{ending, heading, line};
pub use scanning::{Scanned, Spot, Stop, scan};
pub use turns::{Progress, begin, read_on, to_front, written_out};
