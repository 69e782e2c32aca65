// A cEMI frame: cemi.rs, `CEMIFrame`, whose slice stands beside it as a parameter.
#![tactic(auto)]

ghost use Rattle.cemi.specs.Cemi.{ParsePromise, StandsPromise, MessageCodePromise, InfoLengthPromise, ServiceStartPromise, ServiceInfoPromise, ServiceInfoPartPromise, AsLDataPromise, AsLDataInPromise, IsLDataPromise, InfoPromise, InfoPartPromise, BuildPromise};

use constants::CEMIMessageCode;
use ldata::{Counting, LDataFields};
use wire::{Fault, Refusal, View};

#[derive(Clone, Copy)]
pub struct CEMIFrame {
    pub message_code: CEMIMessageCode,
}

impl CEMIFrame {
    pub const MIN_SIZE: usize = 2;

    pub fn parse(data: &[u8]) -> Result<CEMIFrame, Fault>
        ensures { ParsePromise «data».now result }
    {
        if data.len() < CEMIFrame::MIN_SIZE {
            return Err(Fault {
                why: Refusal::BufferTooSmall,
                at: data.len(),
            });
        }
        let message_code = CEMIMessageCode::from_u8(data[0])?;
        Ok(CEMIFrame { message_code })
    }

    pub fn message_code(self) -> CEMIMessageCode
        ensures { MessageCodePromise self result }
    {
        self.message_code
    }

    pub fn additional_info_length(self, data: &[u8]) -> Result<u8, Fault>
        ensures { InfoLengthPromise «data».now result }
    {
        stands(data)?;
        Ok(wire::byte_at(data, 1))
    }

    // Where the bytes after the additional information stand.
    pub fn service_info(self, data: &[u8]) -> Result<View, Fault>
        ensures { ServiceInfoPromise «data».now result }
    {
        stands(data)?;
        let start = service_start(data)?;
        Ok(View {
            start,
            end: data.len(),
        })
    }

    // What `service_info` names, as a part that starts in the middle of the frame.
    pub fn service_info_part(self, data: &[u8]) -> &[u8]
        ensures { ServiceInfoPartPromise «data».now result.now }
    {
        wire::shown(data, self.service_info(data))
    }

    // In the crate's count, as in the Rust.
    pub fn as_ldata(self, data: &[u8]) -> Result<LDataFields, Fault>
        ensures { AsLDataPromise self «data».now result }
    {
        self.as_ldata_in(Counting::Crate, data)
    }

    // The field decides whether it is L_Data, as in the Rust, and before the length is looked at.
    pub fn as_ldata_in(self, counting: Counting, data: &[u8]) -> Result<LDataFields, Fault>
        ensures { AsLDataInPromise counting self «data».now result }
    {
        stands(data)?;
        if !self.is_ldata() {
            return Err(Fault {
                why: Refusal::InvalidMessageCode,
                at: 0,
            });
        }
        let start = service_start(data)?;
        match LDataFields::parse_in(counting, wire::part(data, start, data.len())) {
            Ok(fields) => Ok(fields),
            Err(fault) => Err(Fault {
                why: fault.why,
                at: start + fault.at,
            }),
        }
    }

    pub fn is_ldata(self) -> bool
        ensures { IsLDataPromise self result }
    {
        matches!(
            self.message_code,
            CEMIMessageCode::LDataReq | CEMIMessageCode::LDataInd | CEMIMessageCode::LDataCon,
        )
    }

    // Where the additional information stands: up to where the service information starts. It is not judged.
    pub fn additional_info(self, data: &[u8]) -> Result<View, Fault>
        ensures { InfoPromise «data».now result }
    {
        let behind = self.service_info(data)?;
        Ok(View {
            start: CEMIFrame::MIN_SIZE,
            end: behind.start,
        })
    }

    // What `additional_info` names, as a part that starts in the middle of the frame.
    pub fn additional_info_part(self, data: &[u8]) -> &[u8]
        ensures { InfoPartPromise «data».now result.now }
    {
        wire::shown(data, self.additional_info(data))
    }

    // A whole frame: the additional information has to be readable, the service information is not looked at.
    pub fn build(
        self,
        additional_info: &[u8],
        service_info: &[u8],
        buf: &mut [u8],
    ) -> Result<usize, Refusal>
        ensures { BuildPromise self additional_info.now service_info.now buf.old result buf.new }
    {
        additional_info::judge(additional_info, 0)?;
        let head = [self.message_code.to_u8(), additional_info.len() as u8];
        wire::write3(&head, additional_info, service_info, buf)
    }
}

// The checks of a parse, which every accessor that reads through the slice repeats.
fn stands(data: &[u8]) -> Result<(), Fault>
    ensures { StandsPromise «data».now result }
{
    CEMIFrame::parse(data)?;
    Ok(())
}

// The service information starts behind the additional information, which has to end within the frame.
fn service_start(data: &[u8]) -> Result<usize, Fault>
    ensures { ServiceStartPromise «data».now result }
{
    let start = 2 + wire::byte_at(data, 1) as usize;
    if data.len() < start {
        return Err(Fault {
            why: Refusal::InvalidFrame,
            at: 1,
        });
    }
    Ok(start)
}
