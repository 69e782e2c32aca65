// Reading: a frame, an Hpai, a connect response, and our own address in it.
ghost use Rattle.knx.specs.Reading.{FramePromise, HpaiPromise, ConnectResponsePromise, ConnectResponseStandardPromise, ResponsePromise, OwnAddressPromise};

use connect::ConnectResponse;
use header::KnxnetIpHeader;
use hpai::Hpai;
use wire::Fault;

// C has no Result. A number of 01 and, beside 0, where the body stands, the service and the total length; else the offset of the field that decided.
#[repr(C)]
#[derive(Clone, Copy)]
pub struct KnxFrame {
    pub offset: usize,
    pub start: usize,
    pub end: usize,
    pub service: u16,
    pub total: u16,
    pub number: u8,
}

// C has no Result. A number of 01 and, beside 0, the fields of an Hpai; else the offset of the field that decided.
#[repr(C)]
#[derive(Clone, Copy)]
pub struct KnxHpai {
    pub offset: usize,
    pub structure_length: u8,
    pub host_protocol: u8,
    pub address: [u8; 4],
    pub port: u16,
    pub number: u8,
}

// C has no Result. A number of 01 and, beside 0, the fields of a connect response; else the offset of the field that decided.
#[repr(C)]
#[derive(Clone, Copy)]
pub struct KnxConnectResponse {
    pub offset: usize,
    pub channel: u8,
    pub status: u8,
    pub structure_length: u8,
    pub host_protocol: u8,
    pub address: [u8; 4],
    pub port: u16,
    pub crd: [u8; 4],
    pub number: u8,
}

pub fn knx_frame_parse(data: &[u8]) -> KnxFrame
    ensures { FramePromise «data».now result }
{
    match frame::judge(data) {
        Ok(judged) => KnxFrame {
            offset: 0,
            start: KnxnetIpHeader::SIZE,
            end: judged.total as usize,
            service: judged.service,
            total: judged.total,
            number: 0,
        },
        Err(fault) => KnxFrame {
            offset: fault.at,
            start: 0,
            end: 0,
            service: 0,
            total: 0,
            number: fault.why.number(),
        },
    }
}

pub fn knx_hpai_parse(data: &[u8]) -> KnxHpai
    ensures { HpaiPromise «data».now result }
{
    match Hpai::parse(data) {
        Ok(hpai) => {
            let address = hpai.ip_address;
            KnxHpai {
                offset: 0,
                structure_length: hpai.structure_length,
                host_protocol: hpai.host_protocol,
                address,
                port: hpai.port,
                number: 0,
            }
        }
        Err(fault) => KnxHpai {
            offset: fault.at,
            structure_length: 0,
            host_protocol: 0,
            address: [0; 4],
            port: 0, // no Hpai
            number: fault.why.number(),
        },
    }
}

pub fn knx_connect_response(body: &[u8]) -> KnxConnectResponse
    ensures { ConnectResponsePromise body.now result }
{
    response_as(ConnectResponse::parse(body))
}

// Its own name for C: in KNX's own form, in which a response that refuses ends behind its status.
pub fn knx_connect_response_standard(body: &[u8]) -> KnxConnectResponse
    ensures { ConnectResponseStandardPromise body.now result }
{
    response_as(ConnectResponse::parse_standard(body))
}

// Our own individual address, which the gateway gave us with the channel.
pub fn knx_own_address(response: KnxConnectResponse) -> u16
    ensures { OwnAddressPromise response result }
{
    let crd = response.crd;
    wire::word_at(&crd, 2)
}

fn response_as(answer: Result<ConnectResponse, Fault>) -> KnxConnectResponse
    ensures { ResponsePromise answer result }
{
    match answer {
        Ok(response) => {
            let endpoint = response.data_endpoint;
            let address = endpoint.ip_address;
            let crd = response.crd;
            KnxConnectResponse {
                offset: 0,
                channel: response.channel_id,
                status: response.status,
                structure_length: endpoint.structure_length,
                host_protocol: endpoint.host_protocol,
                address,
                port: endpoint.port,
                crd,
                number: 0,
            }
        }
        Err(fault) => KnxConnectResponse {
            offset: fault.at,
            channel: 0,
            status: 0,
            structure_length: 0,
            host_protocol: 0,
            address: [0; 4],
            port: 0,
            crd: [0; 4],
            number: fault.why.number(),
        },
    }
}
