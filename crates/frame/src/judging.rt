// What the frame checks say of a datagram, in numbers: for a caller that wants no names.
ghost use Rattle.frame.specs.Judging.{JudgePromise};

use crate::frame::FrameFields;
use wire::Fault;

// A frame's service and total length.
#[derive(Clone, Copy)]
pub struct Judged {
    pub service: u16,
    pub total: u16,
}

// The service is read off the bytes, which costs less than by way of its name; the frame's own bytes may end before the slice.
pub fn judge(bytes: &[u8]) -> Result<Judged, Fault>
    ensures { JudgePromise bytes.now result }
{
    let frame = FrameFields::parse(bytes)?;
    Ok(Judged {
        service: wire::word_at(bytes, 2),
        total: frame.header.total_length,
    })
}
