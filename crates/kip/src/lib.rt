// The capture format KIP 1: its start, and its records one at a time from a lent buffer.
#![tactic(auto)]

mod capture;

pub use capture::{START_SIZE, next_record, starts};
