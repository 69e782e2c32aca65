// Frames whose fields no parse read, by the accessors of the fields.
use crate::views;
use constants::ServiceType;
use frame::FrameFields;
use header::KnxnetIpHeader;
use replay::Told;
use wire::Fault;

// Length, version, service by its number, total.
pub(crate) fn fields_at(args: &[u8]) -> FrameFields {
    FrameFields {
        header: KnxnetIpHeader {
            header_length: wire::byte_at(args, 0),
            protocol_version: wire::byte_at(args, 1),
            service_type: variants::service_of(wire::byte_at(args, 2)),
            total_length: wire::word_at(args, 3),
        },
    }
}

// Each accessor's own number stands before its values. The offsets of those that refuse come in the same order.
pub(crate) fn accessors(args: &[u8]) -> Told {
    let f = fields_at(args);
    let slice = wire::part(args, 5, args.len());
    let body = f.body(slice);
    let data = f.data(slice);
    let mut t = service(header(f.header(slice)), f.service_type(slice));
    t.values[7..10].copy_from_slice(&views::numbered(body));
    t.values[10] = replay::remainder(f.body_part(slice));
    t.values[11..14].copy_from_slice(&views::numbered(data));
    t.values[14] = replay::remainder(f.data_part(slice));
    let t = replay::located(t, body.err().map(|fault| fault.at));
    replay::located(t, data.err().map(|fault| fault.at))
}

fn header(answer: Result<KnxnetIpHeader, Fault>) -> Told {
    match answer {
        Ok(h) => {
            let mut t = replay::few(
                15,
                [
                    0,
                    usize::from(h.header_length),
                    usize::from(h.protocol_version),
                    variants::service(h.service_type),
                ],
            );
            t.values[4] = usize::from(h.total_length);
            t
        }
        Err(fault) => {
            let t = replay::few(15, [usize::from(fault.why.number()), 0, 0, 0]);
            replay::located(t, Some(fault.at))
        }
    }
}

// The service type behind the header's values.
fn service(headed: Told, answer: Result<ServiceType, Fault>) -> Told {
    let mut t = headed;
    match answer {
        Ok(s) => {
            t.values[6] = variants::service(s);
            t
        }
        Err(fault) => {
            t.values[5] = usize::from(fault.why.number());
            replay::located(t, Some(fault.at))
        }
    }
}
