// What the programs that replay recorded calls share: the next record, what a call told, its line of text, and the run. compare/README.md lays records and lines out.
#![tactic(auto)]

mod filling;
mod lines;
mod records;
mod running;
mod telegrams;
mod telling;

pub use lines::line;
pub use records::{Record, next, number24, try_next};
pub use running::{Calls, Stopped, replay, try_replay};
pub use telegrams::{asks, telegram};
pub use telling::{Told, few, flag, located, moved, refused, remainder, written};
