// What a datagram says to a tunnel, from its bytes alone.
#![tactic(auto)]

mod hearing;

pub use hearing::{CEMI_START, CHANNEL_OFFSET, Heard, hear, hear_in};
