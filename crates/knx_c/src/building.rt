// The builders, for C.
ghost use Rattle.knx.specs.Building.{LDataBuildPromise, LDataBuildStandardPromise, ConnectRequestPromise, ConnectionStateRequestPromise, DisconnectRequestPromise, TunnelingRequestPromise, TunnelingAckPromise, TunnelingAckStandardPromise, DisconnectResponseBuildPromise};

use knx::{KnxEndpoint, KnxWritten};

#[unsafe(no_mangle)]
pub extern "C" fn knx_ldata_build(
    control_1: u8,
    control_2: u8,
    source: u16,
    destination: u16,
    tpci: u8,
    apci_code: u16,
    six_bit: u8,
    data: &[u8],
    out: &mut [u8],
) -> KnxWritten
    ensures { LDataBuildPromise control_1 control_2 source destination tpci apci_code six_bit «data».now out.old result out.new }
{
    knx::knx_ldata_build(
        control_1,
        control_2,
        source,
        destination,
        tpci,
        apci_code,
        six_bit,
        data,
        out,
    )
}

#[unsafe(no_mangle)]
pub extern "C" fn knx_ldata_build_standard(
    control_1: u8,
    control_2: u8,
    source: u16,
    destination: u16,
    tpci: u8,
    apci_code: u16,
    six_bit: u8,
    data: &[u8],
    out: &mut [u8],
) -> KnxWritten
    ensures { LDataBuildStandardPromise control_1 control_2 source destination tpci apci_code six_bit «data».now out.old result out.new }
{
    knx::knx_ldata_build_standard(
        control_1,
        control_2,
        source,
        destination,
        tpci,
        apci_code,
        six_bit,
        data,
        out,
    )
}

#[unsafe(no_mangle)]
pub extern "C" fn knx_connect_request(
    control: KnxEndpoint,
    data: KnxEndpoint,
    out: &mut [u8],
) -> KnxWritten
    ensures { ConnectRequestPromise control «data» out.old result out.new }
{
    knx::knx_connect_request(control, data, out)
}

#[unsafe(no_mangle)]
pub extern "C" fn knx_connectionstate_request(
    channel: u8,
    control: KnxEndpoint,
    out: &mut [u8],
) -> KnxWritten
    ensures { ConnectionStateRequestPromise channel control out.old result out.new }
{
    knx::knx_connectionstate_request(channel, control, out)
}

#[unsafe(no_mangle)]
pub extern "C" fn knx_disconnect_request(
    channel: u8,
    control: KnxEndpoint,
    out: &mut [u8],
) -> KnxWritten
    ensures { DisconnectRequestPromise channel control out.old result out.new }
{
    knx::knx_disconnect_request(channel, control, out)
}

#[unsafe(no_mangle)]
pub extern "C" fn knx_tunneling_request(
    channel: u8,
    sequence: u8,
    cemi: &[u8],
    out: &mut [u8],
) -> KnxWritten
    ensures { TunnelingRequestPromise channel sequence cemi.now out.old result out.new }
{
    knx::knx_tunneling_request(channel, sequence, cemi, out)
}

#[unsafe(no_mangle)]
pub extern "C" fn knx_tunneling_ack(
    channel: u8,
    sequence: u8,
    status: u8,
    out: &mut [u8],
) -> KnxWritten
    ensures { TunnelingAckPromise channel sequence status out.old result out.new }
{
    knx::knx_tunneling_ack(channel, sequence, status, out)
}

#[unsafe(no_mangle)]
pub extern "C" fn knx_tunneling_ack_standard(
    channel: u8,
    sequence: u8,
    status: u8,
    out: &mut [u8],
) -> KnxWritten
    ensures { TunnelingAckStandardPromise channel sequence status out.old result out.new }
{
    knx::knx_tunneling_ack_standard(channel, sequence, status, out)
}

#[unsafe(no_mangle)]
pub extern "C" fn knx_disconnect_response_build(
    channel: u8,
    status: u8,
    out: &mut [u8],
) -> KnxWritten
    ensures { DisconnectResponseBuildPromise channel status out.old result out.new }
{
    knx::knx_disconnect_response_build(channel, status, out)
}
