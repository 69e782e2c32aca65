// The calls of frame.rs on headers and frames, 1 to 8. Argument bytes that are missing count as 0; another call gets a line that no call has.
use constants::ServiceType;
use frame::{FrameBuilder, FrameFields};
use header::KnxnetIpHeader;
use replay::{Calls, Told};
use wire::Fault;

#[derive(Drop)]
pub(crate) struct FrameCalls;

impl Calls for FrameCalls {
    fn answer(&mut self, call: u8, args: &[u8], buf: &mut [u8]) -> Told {
        // A record names its call by a number.
        match call {
            1 => service_from(args),
            2 => header_new(args),
            3 => header_parse(args),
            4 => header_encode(args, buf),
            5 => header_body_length(args),
            6 => frame_parse(args),
            7 => frame_build(args, buf),
            8 => frame_size(args),
            _ => replay::few(0, [0; 4]),
        }
    }
}

// Alike in two types: each call of the comparison has its function, and a trait would be longer.
fn service_from(args: &[u8]) -> Told {
    match ServiceType::from_u16(wire::word_at(args, 0)) {
        Ok(s) => replay::few(2, [variants::service(s), usize::from(s.to_u16()), 0, 0]),
        Err(fault) => replay::refused(fault, 2),
    }
}

fn service_at(args: &[u8], at: usize) -> ServiceType {
    variants::service_of(wire::byte_at(args, at))
}

fn header(h: KnxnetIpHeader, count: usize) -> Told {
    let mut t = replay::few(
        count,
        [
            usize::from(h.header_length),
            usize::from(h.protocol_version),
            variants::service(h.service_type),
            usize::from(h.service_type.to_u16()),
        ],
    );
    t.values[4] = usize::from(h.total_length);
    t
}

fn header_answer(answer: Result<KnxnetIpHeader, Fault>) -> Told {
    match answer {
        Ok(h) => header(h, 5),
        Err(fault) => replay::refused(fault, 5),
    }
}

fn header_new(args: &[u8]) -> Told {
    header_answer(KnxnetIpHeader::new(
        service_at(args, 0),
        replay::number24(wire::part(args, 1, args.len())),
    ))
}

fn header_parse(args: &[u8]) -> Told {
    header_answer(KnxnetIpHeader::parse(args))
}

fn header_at(args: &[u8]) -> KnxnetIpHeader {
    KnxnetIpHeader {
        header_length: wire::byte_at(args, 0),
        protocol_version: wire::byte_at(args, 1),
        service_type: service_at(args, 2),
        total_length: wire::word_at(args, 3),
    }
}

fn header_encode(args: &[u8], buf: &mut [u8]) -> Told {
    replay::written(header_at(args).encode(buf))
}

fn header_body_length(args: &[u8]) -> Told {
    replay::few(1, [usize::from(header_at(args).body_length()), 0, 0, 0])
}

fn frame_parse(args: &[u8]) -> Told {
    frame(args).unwrap_or_else(|fault| replay::refused(fault, 13))
}

// What the accessors tell of a frame that is parsed, and the parts that are handed out: the body by the record that holds its slice.
fn frame(args: &[u8]) -> Result<Told, Fault> {
    let f = FrameFields::parse(args)?;
    let service = f.service_type(args)?;
    let body = f.body(args)?;
    let data = f.data(args)?;
    let mut t = header(f.header(args)?, 13);
    t.values[5] = variants::service(service);
    t.values[6] = usize::from(service.to_u16());
    t.values[7] = body.start;
    t.values[8] = body.end;
    t.values[9] = replay::remainder(borrowed::body_in(args));
    t.values[10] = data.start;
    t.values[11] = data.end;
    t.values[12] = replay::remainder(f.data_part(args));
    Ok(t)
}

fn frame_build(args: &[u8], buf: &mut [u8]) -> Told {
    let body = wire::part(args, 1, args.len());
    replay::written(FrameBuilder::new(service_at(args, 0)).build(body, buf))
}

fn frame_size(args: &[u8]) -> Told {
    let body = wire::part(args, 1, args.len());
    replay::few(
        1,
        [FrameBuilder::new(service_at(args, 0)).size(body), 0, 0, 0],
    )
}
