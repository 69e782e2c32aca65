// Building: L_Data and the requests, each into a lent buffer.
ghost use Rattle.std.specs.Prelude.{◌≡◌};
ghost use Rattle.knx.specs.Building.{endpoint_of, WrittenPromise, LDataBuildPromise, LDataBuildStandardPromise, LDataBuildInPromise, ConnectRequestPromise, ConnectionStateRequestPromise, DisconnectRequestPromise, TunnelingRequestPromise, TunnelingAckPromise, TunnelingAckStandardPromise, TunnelingAckInPromise, DisconnectResponseBuildPromise};

use address::IndividualAddress;
use connect::{ConnectRequest, ConnectionStateRequest, DisconnectRequest, DisconnectResponse};
use control::{ControlField1, ControlField2};
use hpai::Hpai;
use ldata::{Counting, LDataBuilder};
use pci::Tpci;
use tunnelling::{ConnectionHeader, Form, TunnelingAck, TunnelingRequest};
use wire::Refusal;

// C has no Result. How many bytes were written, and a number of 01. The offset is 0: a builder reads no datagram.
#[repr(C)]
#[derive(Clone, Copy)]
pub struct KnxWritten {
    pub count: usize,
    pub offset: u32,
    pub number: u8,
}

// An IPv4 address and a UDP port.
#[repr(C)]
#[derive(Clone, Copy)]
pub struct KnxEndpoint {
    pub address: [u8; 4],
    pub port: u16,
}

pub fn knx_ldata_build(
    control_1: u8,
    control_2: u8,
    source: u16,
    destination: u16,
    tpci: u8,
    apci_code: u16,
    six_bit: u8,
    data: &[u8],
    out: &mut [u8],
) -> KnxWritten
    ensures { LDataBuildPromise control_1 control_2 source destination tpci apci_code six_bit «data».now out.old result out.new }
{
    ldata_build_in(
        Counting::Crate,
        control_1,
        control_2,
        source,
        destination,
        tpci,
        apci_code,
        six_bit,
        data,
        out,
    )
}

// Its own name for C: in KNX's own count, and for control packets too, whose control code stands in the place of the APCI code.
pub fn knx_ldata_build_standard(
    control_1: u8,
    control_2: u8,
    source: u16,
    destination: u16,
    tpci: u8,
    apci_code: u16,
    six_bit: u8,
    data: &[u8],
    out: &mut [u8],
) -> KnxWritten
    ensures { LDataBuildStandardPromise control_1 control_2 source destination tpci apci_code six_bit «data».now out.old result out.new }
{
    ldata_build_in(
        Counting::Standard,
        control_1,
        control_2,
        source,
        destination,
        tpci,
        apci_code,
        six_bit,
        data,
        out,
    )
}

pub fn knx_connect_request(control: KnxEndpoint, data: KnxEndpoint, out: &mut [u8]) -> KnxWritten
    ensures { ConnectRequestPromise control «data» out.old result out.new }
{
    let request = ConnectRequest::new(endpoint(control), endpoint(data));
    written(request.build(out))
}

// Its own name for C, as the next.
pub fn knx_connectionstate_request(channel: u8, control: KnxEndpoint, out: &mut [u8]) -> KnxWritten
    ensures { ConnectionStateRequestPromise channel control out.old result out.new }
{
    let request = ConnectionStateRequest::new(channel, endpoint(control));
    written(request.build(out))
}

pub fn knx_disconnect_request(channel: u8, control: KnxEndpoint, out: &mut [u8]) -> KnxWritten
    ensures { DisconnectRequestPromise channel control out.old result out.new }
{
    let request = DisconnectRequest::new(channel, endpoint(control));
    written(request.build(out))
}

pub fn knx_tunneling_request(channel: u8, sequence: u8, cemi: &[u8], out: &mut [u8]) -> KnxWritten
    ensures { TunnelingRequestPromise channel sequence cemi.now out.old result out.new }
{
    let request = TunnelingRequest::new(ConnectionHeader::new(channel, sequence));
    written(request.build(cemi, out))
}

pub fn knx_tunneling_ack(channel: u8, sequence: u8, status: u8, out: &mut [u8]) -> KnxWritten
    ensures { TunnelingAckPromise channel sequence status out.old result out.new }
{
    tunneling_ack_in(Form::Crate, channel, sequence, status, out)
}

// Its own name for C: in KNX's own form.
pub fn knx_tunneling_ack_standard(
    channel: u8,
    sequence: u8,
    status: u8,
    out: &mut [u8],
) -> KnxWritten
    ensures { TunnelingAckStandardPromise channel sequence status out.old result out.new }
{
    tunneling_ack_in(Form::Standard, channel, sequence, status, out)
}

// The answer to a disconnect request that the gateway sent.
pub fn knx_disconnect_response_build(channel: u8, status: u8, out: &mut [u8]) -> KnxWritten
    ensures { DisconnectResponseBuildPromise channel status out.old result out.new }
{
    let response = DisconnectResponse::new(channel, status);
    written(response.build(out))
}

fn tunneling_ack_in(form: Form, channel: u8, sequence: u8, status: u8, out: &mut [u8]) -> KnxWritten
    ensures { TunnelingAckInPromise form channel sequence status out.old result out.new }
{
    let ack = TunnelingAck::new(ConnectionHeader::new(channel, sequence), status);
    written(ack.build_in(form, out))
}

// The TPCI is given by its byte, whose low two bits are not looked at.
fn ldata_build_in(
    counting: Counting,
    control_1: u8,
    control_2: u8,
    source: u16,
    destination: u16,
    tpci: u8,
    apci_code: u16,
    six_bit: u8,
    data: &[u8],
    out: &mut [u8],
) -> KnxWritten
    ensures { LDataBuildInPromise counting control_1 control_2 source destination tpci apci_code six_bit «data».now out.old result out.new }
{
    let ctrl1 = ControlField1::from_u8(control_1);
    let ctrl2 = ControlField2::from_u8(control_2);
    let from = IndividualAddress::from_u16(source);
    let packet = Tpci::from_byte(tpci);
    let builder = LDataBuilder {
        ctrl1,
        ctrl2,
        source: from,
        destination_raw: destination,
        tpci: packet,
        apci_code,
        six_bit,
    };
    written(builder.build_in(counting, data, out))
}

// What a builder answered, as numbers.
pub(crate) fn written(answer: Result<usize, Refusal>) -> KnxWritten
    ensures { WrittenPromise answer result }
{
    match answer {
        Ok(count) => KnxWritten {
            count,
            offset: 0,
            number: 0,
        },
        Err(why) => KnxWritten {
            count: 0,
            offset: 0,
            number: why.number(),
        },
    }
}

// For IPv4 over UDP.
fn endpoint(e: KnxEndpoint) -> Hpai
    ensures { result ≡ endpoint_of e }
{
    let address = e.address;
    Hpai::new(address, e.port)
}
