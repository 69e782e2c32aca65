// A frame that borrows its bytes.
ghost use Rattle.borrowed.specs.KnxnetIpFrame.{ParsePromise, BodyViewPromise, BodyPromise, BodyInPromise};

use frame::FrameFields;
use wire::{Fault, View};

// The bytes of the datagram, none where it is refused, and what parsing it answered.
#[derive(Clone, Copy)]
pub struct KnxnetIpFrame<'a> {
    pub data: &'a [u8],
    pub answer: Result<FrameFields, Fault>,
}

impl<'a> KnxnetIpFrame<'a> {
    pub fn parse(data: &'a [u8]) -> KnxnetIpFrame<'a>
        ensures { ParsePromise «data».now result }
    {
        match FrameFields::parse(data) {
            Ok(fields) => KnxnetIpFrame {
                data,
                answer: Ok(fields),
            },
            Err(fault) => KnxnetIpFrame {
                data: wire::part(data, 0, 0),
                answer: Err(fault),
            },
        }
    }

    // Empty for a frame that is refused, and for one that no parse made and whose body its bytes do not hold.
    pub fn body(self) -> &'a [u8]
        ensures { BodyPromise self.entry result.now }
    {
        wire::shown(self.data, body_view(self.data, self.answer))
    }
}

// The body of a datagram, for a caller that has no frame; empty where it is refused.
pub fn body_in(datagram: &[u8]) -> &[u8]
    ensures { BodyInPromise datagram.now result.now }
{
    KnxnetIpFrame::parse(datagram).body()
}

// Where the body stands in what a frame borrows; a frame that no parse made is checked here.
pub fn body_view(data: &[u8], answer: Result<FrameFields, Fault>) -> Result<View, Fault>
    ensures { BodyViewPromise «data».now answer result }
{
    answer?.body(data)
}
