// The calls of services.rs that connect, keep alive and disconnect, 12 to 21, and those of a session with a real gateway, 73 to 75.
use crate::hpai_calls;
use connect::{
    ConnectRequest, ConnectResponse, ConnectionRequestInfo, ConnectionStateRequest,
    ConnectionStateResponse, DisconnectRequest, DisconnectResponse,
};
use replay::Told;

fn cri(c: ConnectionRequestInfo) -> Told {
    replay::few(
        2,
        [
            usize::from(c.connection_type),
            usize::from(c.knx_layer),
            0,
            0,
        ],
    )
}

fn cri_at(args: &[u8], at: usize) -> ConnectionRequestInfo {
    let s = wire::part(args, at, args.len());
    ConnectionRequestInfo {
        connection_type: wire::byte_at(s, 0),
        knx_layer: wire::byte_at(s, 1),
    }
}

pub(crate) fn cri_tunnel() -> Told {
    cri(ConnectionRequestInfo::tunnel_link_layer())
}

pub(crate) fn cri_encode(args: &[u8], buf: &mut [u8]) -> Told {
    replay::written(cri_at(args, 0).encode(buf))
}

// Alike in two types: each call of the comparison has its function, and a trait would be longer.
pub(crate) fn cri_decode(args: &[u8]) -> Told {
    match ConnectionRequestInfo::decode(args) {
        Ok(c) => cri(c),
        Err(fault) => replay::refused(fault, 2),
    }
}

pub(crate) fn connect_new(args: &[u8], buf: &mut [u8]) -> Told {
    let q = ConnectRequest::new(hpai_calls::read_at(args, 0), hpai_calls::read_at(args, 8));
    replay::written(q.build(buf))
}

pub(crate) fn connect_build(args: &[u8], buf: &mut [u8]) -> Told {
    let q = ConnectRequest {
        control_endpoint: hpai_calls::read_at(args, 0),
        data_endpoint: hpai_calls::read_at(args, 8),
        cri: cri_at(args, 16),
    };
    replay::written(q.build(buf))
}

// The seven values of the Hpai, then channel, status, crd and is_ok.
fn response(c: ConnectResponse, count: usize) -> Told {
    let mut t = replay::few(count, [0; 4]);
    t.values[..7].copy_from_slice(&hpai_calls::values(c.data_endpoint));
    t.values[7] = usize::from(c.channel_id);
    t.values[8] = usize::from(c.status);
    t.values[9..13].copy_from_slice(&c.crd.map(usize::from));
    t.values[13] = replay::flag(c.is_ok());
    t
}

pub(crate) fn connect_response(args: &[u8]) -> Told {
    match ConnectResponse::parse(args) {
        Ok(c) => response(c, 14),
        Err(fault) => replay::refused(fault, 14),
    }
}

// And our own individual address behind them.
pub(crate) fn standard_response(args: &[u8]) -> Told {
    match ConnectResponse::parse_standard(args) {
        Ok(c) => {
            let mut t = response(c, 15);
            t.values[14] = usize::from(c.individual_address().to_u16());
            t
        }
        Err(fault) => replay::refused(fault, 15),
    }
}

fn status(channel: u8, status: u8, ok: bool) -> Told {
    replay::few(
        3,
        [
            usize::from(channel),
            usize::from(status),
            replay::flag(ok),
            0,
        ],
    )
}

pub(crate) fn state_build(args: &[u8], buf: &mut [u8]) -> Told {
    replay::written(ConnectionStateRequest::new(
        wire::byte_at(args, 0),
        hpai_calls::read_at(args, 1),
    ).build(buf))
}

// As disconnect_parse, of another type: each call of the comparison has its function.
pub(crate) fn state_parse(args: &[u8]) -> Told {
    match ConnectionStateResponse::parse(args) {
        Ok(c) => status(c.channel_id, c.status, c.is_ok()),
        Err(fault) => replay::refused(fault, 3),
    }
}

pub(crate) fn disconnect_build(args: &[u8], buf: &mut [u8]) -> Told {
    replay::written(DisconnectRequest::new(
        wire::byte_at(args, 0),
        hpai_calls::read_at(args, 1),
    ).build(buf))
}

pub(crate) fn disconnect_parse(args: &[u8]) -> Told {
    match DisconnectResponse::parse(args) {
        Ok(c) => status(c.channel_id, c.status, c.is_ok()),
        Err(fault) => replay::refused(fault, 3),
    }
}

// The channel, and the seven values of the Hpai behind it.
pub(crate) fn disconnect_request_parse(args: &[u8]) -> Told {
    match DisconnectRequest::parse(args) {
        Ok(q) => {
            let mut t = replay::few(8, [0; 4]);
            t.values[0] = usize::from(q.channel_id);
            t.values[1..8].copy_from_slice(&hpai_calls::values(q.control_endpoint));
            t
        }
        Err(fault) => replay::refused(fault, 8),
    }
}

pub(crate) fn disconnect_response_build(args: &[u8], buf: &mut [u8]) -> Told {
    let response = DisconnectResponse::new(wire::byte_at(args, 0), wire::byte_at(args, 1));
    replay::written(response.build(buf))
}
