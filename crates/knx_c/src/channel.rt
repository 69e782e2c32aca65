// What is said of a channel, for C.
ghost use Rattle.knx.specs.Channel.{StatusPromise, DisconnectRequestPromise};

use knx::{KnxDisconnectRequest, KnxStatus};

#[unsafe(no_mangle)]
pub extern "C" fn knx_connectionstate_response(body: &[u8]) -> KnxStatus
    ensures { StatusPromise body.now result }
{
    knx::knx_connectionstate_response(body)
}

#[unsafe(no_mangle)]
pub extern "C" fn knx_disconnect_response(body: &[u8]) -> KnxStatus
    ensures { StatusPromise body.now result }
{
    knx::knx_disconnect_response(body)
}

#[unsafe(no_mangle)]
pub extern "C" fn knx_disconnect_request_parse(body: &[u8]) -> KnxDisconnectRequest
    ensures { DisconnectRequestPromise body.now result }
{
    knx::knx_disconnect_request_parse(body)
}
