// While a channel is open: what a gateway answers and asks. Each is read from the body of its frame.
ghost use Rattle.knx.specs.Channel.{StatusPromise, NoStatusPromise, DisconnectRequestPromise};

use connect::{ConnectionStateResponse, DisconnectRequest};
use wire::Fault;

// C has no Result. A number of 01 and, beside 0, a channel and its status; else the offset of the field that decided.
#[repr(C)]
#[derive(Clone, Copy)]
pub struct KnxStatus {
    pub offset: usize,
    pub channel: u8,
    pub status: u8,
    pub number: u8,
}

// C has no Result. A number of 01 and, beside 0, a channel and the gateway's control endpoint; else the offset of the field that decided.
#[repr(C)]
#[derive(Clone, Copy)]
pub struct KnxDisconnectRequest {
    pub offset: usize,
    pub channel: u8,
    pub structure_length: u8,
    pub host_protocol: u8,
    pub address: [u8; 4],
    pub port: u16,
    pub number: u8,
}

// Its own name for C, as the next.
pub fn knx_connectionstate_response(body: &[u8]) -> KnxStatus
    ensures { StatusPromise body.now result }
{
    status_in(body)
}

pub fn knx_disconnect_response(body: &[u8]) -> KnxStatus
    ensures { StatusPromise body.now result }
{
    status_in(body)
}

pub fn knx_disconnect_request_parse(body: &[u8]) -> KnxDisconnectRequest
    ensures { DisconnectRequestPromise body.now result }
{
    match DisconnectRequest::parse(body) {
        Ok(request) => {
            let endpoint = request.control_endpoint;
            let address = endpoint.ip_address;
            KnxDisconnectRequest {
                offset: 0,
                channel: request.channel_id,
                structure_length: endpoint.structure_length,
                host_protocol: endpoint.host_protocol,
                address,
                port: endpoint.port,
                number: 0,
            }
        }
        Err(fault) => KnxDisconnectRequest {
            offset: fault.at,
            channel: 0,
            structure_length: 0,
            host_protocol: 0,
            address: [0; 4],
            port: 0,
            number: fault.why.number(),
        },
    }
}

// Both responses are a channel and a status, and read alike.
fn status_in(body: &[u8]) -> KnxStatus
    ensures { StatusPromise body.now result }
{
    match ConnectionStateResponse::parse(body) {
        Ok(response) => KnxStatus {
            offset: 0,
            channel: response.channel_id,
            status: response.status,
            number: 0,
        },
        Err(fault) => no_status(fault),
    }
}

fn no_status(fault: Fault) -> KnxStatus
    ensures { NoStatusPromise fault result }
{
    KnxStatus {
        offset: fault.at,
        channel: 0,
        status: 0,
        number: fault.why.number(),
    }
}
