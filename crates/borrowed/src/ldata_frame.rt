// An L_Data frame that borrows its data, in the crate's count or in the one that a call is given.
ghost use Rattle.borrowed.specs.LDataFrame.{ParsePromise, ParseInPromise, DataPromise, FrameDataInPromise, DataInPromise, DataInCountPromise, DataViewPromise, DataViewInPromise, BorrowedViewPromise};

use ldata::{Counting, LDataFields};
use wire::{Fault, Refusal, View};

// The application data, none where the frame is refused, and what parsing it answered.
#[derive(Clone, Copy)]
pub struct LDataFrame<'a> {
    pub data: &'a [u8],
    pub answer: Result<LDataFields, Fault>,
}

impl<'a> LDataFrame<'a> {
    // In the crate's count, as in the Rust.
    pub fn parse(data: &'a [u8]) -> LDataFrame<'a>
        ensures { ParsePromise «data».now result }
    {
        LDataFrame::parse_in(Counting::Crate, data)
    }

    pub fn parse_in(counting: Counting, data: &'a [u8]) -> LDataFrame<'a>
        ensures { ParseInPromise counting «data».now result }
    {
        match LDataFields::parse_in(counting, data) {
            Ok(fields) => LDataFrame {
                data: fields.data_part_in(counting, data),
                answer: Ok(fields),
            },
            Err(fault) => LDataFrame {
                data: wire::part(data, 0, 0),
                answer: Err(fault),
            },
        }
    }

    // In the crate's count.
    pub fn data(self) -> &'a [u8]
        ensures { DataPromise self.entry result.now }
    {
        self.data_in(Counting::Crate)
    }

    // Empty for a frame that is refused, and for one that no parse made and that does not hold its data.
    pub fn data_in(self, counting: Counting) -> &'a [u8]
        ensures { FrameDataInPromise counting self.entry result.now }
    {
        wire::shown(self.data, data_view_in(counting, self.data, self.answer))
    }
}

// The application data of an L_Data frame, for a caller that has none; empty where it is refused.
pub fn data_in(bytes: &[u8]) -> &[u8]
    ensures { DataInPromise bytes.now result.now }
{
    LDataFrame::parse(bytes).data()
}

pub fn data_in_count(counting: Counting, bytes: &[u8]) -> &[u8]
    ensures { DataInCountPromise counting bytes.now result.now }
{
    LDataFrame::parse_in(counting, bytes).data_in(counting)
}

// Where the data stands in what a frame borrows; a frame that no parse made is checked here.
pub fn data_view(data: &[u8], answer: Result<LDataFields, Fault>) -> Result<View, Fault>
    ensures { DataViewPromise «data».now answer result }
{
    data_view_in(Counting::Crate, data, answer)
}

pub fn data_view_in(
    counting: Counting,
    data: &[u8],
    answer: Result<LDataFields, Fault>,
) -> Result<View, Fault>
    ensures { DataViewInPromise counting «data».now answer result }
{
    borrowed_view(counting, data, answer?)
}

// The frame's data alone is borrowed, so all of it stands from the start on.
fn borrowed_view(counting: Counting, data: &[u8], frame: LDataFields) -> Result<View, Fault>
    ensures { BorrowedViewPromise counting «data».now frame result }
{
    let is_data = frame.tpci.is_data();
    let start = ldata::data_start(is_data);
    let end = counting.data_end(frame.npdu_length);
    let fault = Fault {
        why: Refusal::InvalidFrame,
        at: 6,
    };
    if start + data.len() < end {
        return Err(fault);
    }
    if counting.allows(is_data, frame.npdu_length) {
        return Ok(View {
            start: 0,
            end: end - start,
        });
    }
    Err(fault)
}
