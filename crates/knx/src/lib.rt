// The C border: the calls that a host makes often, over numbers and lent bytes. Each is thin over a proved function of a crate below; include/knx.h declares them.
// C has no generic function and no enum of a fixed size: a twin in KNX's own count or form has a name of its own, as include/knx.h has it.
#![tactic(auto)]

mod building;
mod called;
mod cemi_ldata;
mod channel;
mod info;
mod reading;

pub use building::{
    KnxEndpoint, KnxWritten, knx_connect_request, knx_connectionstate_request,
    knx_disconnect_request, knx_disconnect_response_build, knx_ldata_build,
    knx_ldata_build_standard, knx_tunneling_ack, knx_tunneling_ack_standard, knx_tunneling_request,
};
pub use called::{
    KnxCalled, knx_table_close, knx_table_datagram, knx_table_datagram_standard, knx_table_empty,
    knx_table_open, knx_table_send, knx_table_timeout,
};
pub use cemi_ldata::{KnxLData, knx_cemi_ldata, knx_cemi_ldata_standard};
pub use channel::{
    KnxDisconnectRequest, KnxStatus, knx_connectionstate_response, knx_disconnect_request_parse,
    knx_disconnect_response,
};
pub use info::{
    KnxAdditionalInfo, KnxCount, KnxPart, knx_additional_info, knx_additional_info_append,
    knx_additional_info_count, knx_additional_info_nth, knx_cemi_additional_info, knx_cemi_build,
};
pub use reading::{
    KnxConnectResponse, KnxFrame, KnxHpai, knx_connect_response, knx_connect_response_standard,
    knx_frame_parse, knx_hpai_parse, knx_own_address,
};
