// A table of eight tunnels: the place of a channel is found, its tunnel is stepped by value, and the place is written back.
#![tactic(auto)]

mod places;
mod spot;
mod table;

pub use places::Held;
pub use table::{Called, Table};
