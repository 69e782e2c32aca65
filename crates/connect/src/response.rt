// The answer to a connect request.
ghost use Rattle.std.specs.Prelude.{◌≤◌, length};
ghost use Rattle.connect.specs.Response.{ParsePromise, ParseStandardPromise, StandsPromise, ReadPromise, IsOkPromise, IndividualAddressPromise, BarePromise};

use crate::endpoint;
use address::IndividualAddress;
use hpai::Hpai;
use wire::{Fault, Refusal};

#[derive(Clone, Copy)]
pub struct ConnectResponse {
    pub channel_id: u8,
    pub status: u8,
    pub data_endpoint: Hpai,
    pub crd: [u8; 4],
}

impl ConnectResponse {
    // Fourteen bytes are needed whatever the status.
    pub fn parse(data: &[u8]) -> Result<ConnectResponse, Fault>
        ensures { ParsePromise «data».now result }
    {
        stands(data)?;
        Ok(read(data))
    }

    // In KNX's own form a response that refuses ends behind its status. It goes by the parts of parse and not by parse, whose Result would go through memory once more.
    pub fn parse_standard(data: &[u8]) -> Result<ConnectResponse, Fault>
        ensures { ParseStandardPromise «data».now result }
    {
        if data.len() < 2 {
            return Err(Fault {
                why: Refusal::BufferTooSmall,
                at: data.len(),
            });
        }
        if data[1] != 0 {
            return Ok(bare(data[0], data[1]));
        }
        stands(data)?;
        Ok(read(data))
    }

    pub fn is_ok(self) -> bool
        ensures { IsOkPromise self result }
    {
        self.status == 0
    }

    // The address that the gateway gave us on the bus, of a tunnel that it opened.
    pub fn individual_address(self) -> IndividualAddress
        ensures { IndividualAddressPromise self result }
    {
        let crd = self.crd;
        IndividualAddress::from_u16(wire::word_at(&crd, 2))
    }
}

// The checks of a response that is fourteen bytes long whatever its status.
fn stands(data: &[u8]) -> Result<(), Fault>
    ensures { StandsPromise «data».now result }
{
    if data.len() < 14 {
        return Err(Fault {
            why: Refusal::BufferTooSmall,
            at: data.len(),
        });
    }
    endpoint::stands(data)
}

// Its fields, which the checks let pass. Its two callers owe the length.
fn read(data: &[u8]) -> ConnectResponse
    requires { 14 ≤ length «data».now }
    ensures { ReadPromise «data».now result }
{
    let data_endpoint = endpoint::read(data);
    let crd = [data[10], data[11], data[12], data[13]];
    ConnectResponse {
        channel_id: data[0],
        status: data[1],
        data_endpoint,
        crd,
    }
}

// Channel and status alone, and zeros.
fn bare(channel_id: u8, status: u8) -> ConnectResponse
    ensures { BarePromise channel_id status result }
{
    let data_endpoint = Hpai {
        structure_length: 0,
        host_protocol: 0,
        ip_address: [0, 0, 0, 0],
        port: 0,
    };
    ConnectResponse {
        channel_id,
        status,
        data_endpoint,
        crd: [0, 0, 0, 0],
    }
}
