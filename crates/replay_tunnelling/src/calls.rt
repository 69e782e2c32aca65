// The calls of services.rs that tunnel, 22 to 27, and an acknowledgement in KNX's own form, 71 and 72.
use replay::{Calls, Told};
use tunnelling::{ConnectionHeader, Form, TunnelingAck, TunnelingRequest};
use wire::Fault;

#[derive(Drop)]
pub(crate) struct TunnellingCalls;

impl Calls for TunnellingCalls {
    fn answer(&mut self, call: u8, args: &[u8], buf: &mut [u8]) -> Told {
        // A record names its call by a number.
        match call {
            22 => header_encode(args, buf),
            23 => header_decode(args),
            24 => request_build(args, buf),
            25 => request_parse(args),
            26 => ack_build(args, buf),
            27 => ack_parse(args),
            71 => standard_ack_build(args, buf),
            72 => standard_ack_parse(args),
            _ => replay::few(0, [0; 4]),
        }
    }
}

fn header_at(args: &[u8]) -> ConnectionHeader {
    ConnectionHeader::new(wire::byte_at(args, 0), wire::byte_at(args, 1))
}

fn header_encode(args: &[u8], buf: &mut [u8]) -> Told {
    replay::written(header_at(args).encode(buf))
}

fn header_decode(args: &[u8]) -> Told {
    match ConnectionHeader::decode(args) {
        Ok(h) => told(h, 2, 0, 0),
        Err(fault) => replay::refused(fault, 2),
    }
}

fn request_build(args: &[u8], buf: &mut [u8]) -> Told {
    let cemi = wire::part(args, 2, args.len());
    replay::written(TunnelingRequest::new(header_at(args)).build(cemi, buf))
}

fn request_parse(args: &[u8]) -> Told {
    request(args).unwrap_or_else(|fault| replay::refused(fault, 5))
}

fn request(args: &[u8]) -> Result<Told, Fault> {
    let q = TunnelingRequest::parse(args)?;
    let view = q.cemi_data(args)?;
    let mut t = told(q.connection_header, 5, view.start, view.end);
    t.values[4] = replay::remainder(q.cemi_part(args));
    Ok(t)
}

fn ack_at(args: &[u8]) -> TunnelingAck {
    TunnelingAck::new(header_at(args), wire::byte_at(args, 2))
}

fn ack_build(args: &[u8], buf: &mut [u8]) -> Told {
    replay::written(ack_at(args).build(buf))
}

fn ack_parse(args: &[u8]) -> Told {
    ack(TunnelingAck::parse(args))
}

fn standard_ack_build(args: &[u8], buf: &mut [u8]) -> Told {
    replay::written(ack_at(args).build_in(Form::Standard, buf))
}

fn standard_ack_parse(args: &[u8]) -> Told {
    ack(TunnelingAck::parse_in(Form::Standard, args))
}

fn ack(answer: Result<TunnelingAck, Fault>) -> Told {
    match answer {
        Ok(a) => told(
            a.connection_header,
            4,
            usize::from(a.status),
            replay::flag(a.is_ok()),
        ),
        Err(fault) => replay::refused(fault, 4),
    }
}

// Channel and sequence, and two values behind them.
fn told(h: ConnectionHeader, count: usize, c: usize, d: usize) -> Told {
    replay::few(
        count,
        [
            usize::from(h.channel_id),
            usize::from(h.sequence_counter),
            c,
            d,
        ],
    )
}
