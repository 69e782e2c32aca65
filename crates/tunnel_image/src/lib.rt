// The byte image of a tunnel table, which a host lends from call to call: eight places of five bytes.
#![tactic(auto)]

mod image;

pub use image::{SIZE, pack, unpack};
