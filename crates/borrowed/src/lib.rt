// The records that borrow their slice: thin over the proved functions of `frame` and `ldata`.
#![tactic(auto)]

mod knxnet_ip_frame;
mod ldata_frame;

pub use knxnet_ip_frame::{KnxnetIpFrame, body_in, body_view};
pub use ldata_frame::{LDataFrame, data_in, data_in_count, data_view, data_view_in};
