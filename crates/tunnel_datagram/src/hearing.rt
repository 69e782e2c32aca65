// A datagram is a request or an acknowledgement of a channel, or it is refused.
ghost use Rattle.std.specs.Prelude.{◌≡◌, ◌+◌, ◌<◌};
ghost use Rattle.wire.specs.Parts.{part_of};
ghost use Rattle.wire.specs.Places.{later_fault};
ghost use Rattle.constants.specs.Constants.{header_size};
ghost use Rattle.tunnel_datagram.specs.Hearing.{in_frame, request_in, ack_in, HearPromise, HearInPromise};
ghost use Rattle.constants.specs.Services.{code_of};

use constants::ServiceType;
use frame::FrameFields;
use header::KnxnetIpHeader;
use tunnelling::{Form, TunnelingAck, TunnelingRequest};
use wire::{Fault, Refusal};

// Where the cEMI frame of a request starts: behind the header and the connection header.
pub const CEMI_START: usize = 10;

// Where a tunnelled frame and an acknowledgement name their channel.
pub const CHANNEL_OFFSET: usize = 7;

// A request's cEMI frame runs from there to the end of its frame.
#[derive(Clone, Copy)]
pub enum Heard {
    Request { channel: u8, number: u8, end: usize },
    Ack { channel: u8, number: u8, status: u8 },
}

pub fn hear(bytes: &[u8]) -> Result<Heard, Fault>
    ensures { HearPromise bytes.now result }
{
    hear_in(Form::Crate, bytes)
}

// An acknowledgement is read in this form.
pub fn hear_in(form: Form, bytes: &[u8]) -> Result<Heard, Fault>
    ensures { HearInPromise form bytes.now result }
{
    let frame = FrameFields::parse(bytes)?;
    in_frame(form, frame, bytes)
}

// The frame was accepted, so its body is taken without its checks.
fn in_frame(form: Form, frame: FrameFields, bytes: &[u8]) -> Result<Heard, Fault>
    ensures { result ≡ in_frame form (code_of frame.header.service_type) frame.header.total_length (part_of bytes.now 6 frame.header.total_length) }
{
    let header = frame.header;
    let end = header.total_length as usize;
    let body = wire::part(bytes, KnxnetIpHeader::SIZE, end);
    match header.service_type {
        ServiceType::TunnellingRequest => in_request(body, end),
        ServiceType::TunnellingAck => in_ack(form, body),
        _ => Err(Fault {
            why: Refusal::NotForTunnels,
            at: 2,
        }),
    }
}

fn in_request(body: &[u8], end: usize) -> Result<Heard, Fault>
    ensures { result ≡ request_in body.now end }
{
    match TunnelingRequest::parse(body) {
        Ok(request) => Ok(Heard::Request {
            channel: request.connection_header.channel_id,
            number: request.connection_header.sequence_counter,
            end,
        }),
        Err(fault) => Err(in_body(fault)),
    }
}

fn in_ack(form: Form, body: &[u8]) -> Result<Heard, Fault>
    ensures { result ≡ ack_in form body.now }
{
    match TunnelingAck::parse_in(form, body) {
        Ok(ack) => Ok(Heard::Ack {
            channel: ack.connection_header.channel_id,
            number: ack.connection_header.sequence_counter,
            status: ack.status,
        }),
        Err(fault) => Err(in_body(fault)),
    }
}

// A refusal of the body, as the datagram's: the body stands behind the header.
// Its two callers owe the premise; a struct for that would be longer.
fn in_body(fault: Fault) -> Fault
    requires { header_size + fault.at < 18446744073709551616 }
    ensures { result ≡ later_fault header_size fault }
{
    Fault {
        why: fault.why,
        at: KnxnetIpHeader::SIZE + fault.at,
    }
}
