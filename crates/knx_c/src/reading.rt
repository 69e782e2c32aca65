// Frames and endpoints that are read, for C.
ghost use Rattle.knx.specs.Reading.{FramePromise, HpaiPromise, ConnectResponsePromise, ConnectResponseStandardPromise, OwnAddressPromise};

use knx::{KnxConnectResponse, KnxFrame, KnxHpai};

#[unsafe(no_mangle)]
pub extern "C" fn knx_frame_parse(data: &[u8]) -> KnxFrame
    ensures { FramePromise «data».now result }
{
    knx::knx_frame_parse(data)
}

#[unsafe(no_mangle)]
pub extern "C" fn knx_hpai_parse(data: &[u8]) -> KnxHpai
    ensures { HpaiPromise «data».now result }
{
    knx::knx_hpai_parse(data)
}

#[unsafe(no_mangle)]
pub extern "C" fn knx_connect_response(body: &[u8]) -> KnxConnectResponse
    ensures { ConnectResponsePromise body.now result }
{
    knx::knx_connect_response(body)
}

#[unsafe(no_mangle)]
pub extern "C" fn knx_connect_response_standard(body: &[u8]) -> KnxConnectResponse
    ensures { ConnectResponseStandardPromise body.now result }
{
    knx::knx_connect_response_standard(body)
}

#[unsafe(no_mangle)]
pub extern "C" fn knx_own_address(response: KnxConnectResponse) -> u16
    ensures { OwnAddressPromise response result }
{
    knx::knx_own_address(response)
}
