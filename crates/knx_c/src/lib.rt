// The C border's exports: a static library over `knx`, with the names that include/knx.h declares. Each export calls the function of its name and promises the same; the two stay two, since a crate is a library or a static library.
#![tactic(auto)]

mod building;
mod called;
mod cemi_ldata;
mod channel;
mod info;
mod reading;
