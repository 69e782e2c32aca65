// Keeping a channel alive and closing it: two requests of one shape, two responses of one shape. They stay four types, with the published crate's names and fields, so that none passes for another; what they share is at the end.
ghost use Rattle.connect.specs.Channel.{StateNewPromise, StateBuildPromise, StateParsePromise, StateIsOkPromise, DisconnectNewPromise, DisconnectBuildPromise, DisconnectParsePromise, DisconnectIsOkPromise, RequestPromise, StatusPromise, DisconnectRequestParsePromise, DisconnectResponseNewPromise, DisconnectResponseBuildPromise};

use crate::endpoint;
use constants::ServiceType;
use hpai::Hpai;
use wire::{Fault, Refusal};

#[derive(Clone, Copy)]
pub struct ConnectionStateRequest {
    pub channel_id: u8,
    pub control_endpoint: Hpai,
}

#[derive(Clone, Copy)]
pub struct ConnectionStateResponse {
    pub channel_id: u8,
    pub status: u8,
}

#[derive(Clone, Copy)]
pub struct DisconnectRequest {
    pub channel_id: u8,
    pub control_endpoint: Hpai,
}

#[derive(Clone, Copy)]
pub struct DisconnectResponse {
    pub channel_id: u8,
    pub status: u8,
}

// What both responses hold.
#[derive(Clone, Copy)]
pub(crate) struct Status {
    pub(crate) channel_id: u8,
    pub(crate) status: u8,
}

impl ConnectionStateRequest {
    // Alike in four records: NewPromise is of each, and the published crate names it.
    pub fn new(channel_id: u8, control_endpoint: Hpai) -> ConnectionStateRequest
        ensures { StateNewPromise channel_id control_endpoint result }
    {
        ConnectionStateRequest {
            channel_id,
            control_endpoint,
        }
    }

    pub fn build(self, buf: &mut [u8]) -> Result<usize, Refusal>
        ensures { StateBuildPromise self buf.old result buf.new }
    {
        request(
            ServiceType::ConnectionstateRequest,
            self.channel_id,
            self.control_endpoint,
            buf,
        )
    }
}

impl ConnectionStateResponse {
    pub fn parse(data: &[u8]) -> Result<ConnectionStateResponse, Fault>
        ensures { StateParsePromise «data».now result }
    {
        let Status { channel_id, status } = read_status(data)?;
        Ok(ConnectionStateResponse { channel_id, status })
    }

    pub fn is_ok(self) -> bool
        ensures { StateIsOkPromise self result }
    {
        self.status == 0
    }
}

impl DisconnectRequest {
    // Alike in four records: NewPromise is of each, and the published crate names it.
    pub fn new(channel_id: u8, control_endpoint: Hpai) -> DisconnectRequest
        ensures { DisconnectNewPromise channel_id control_endpoint result }
    {
        DisconnectRequest {
            channel_id,
            control_endpoint,
        }
    }

    pub fn build(self, buf: &mut [u8]) -> Result<usize, Refusal>
        ensures { DisconnectBuildPromise self buf.old result buf.new }
    {
        request(
            ServiceType::DisconnectRequest,
            self.channel_id,
            self.control_endpoint,
            buf,
        )
    }

    // A request that the gateway sent; its reserved byte is not looked at.
    pub fn parse(data: &[u8]) -> Result<DisconnectRequest, Fault>
        ensures { DisconnectRequestParsePromise «data».now result }
    {
        if data.len() < 10 {
            return Err(Fault {
                why: Refusal::BufferTooSmall,
                at: data.len(),
            });
        }
        endpoint::stands(data)?;
        let control_endpoint = endpoint::read(data);
        Ok(DisconnectRequest {
            channel_id: data[0],
            control_endpoint,
        })
    }
}

impl DisconnectResponse {
    pub fn new(channel_id: u8, status: u8) -> DisconnectResponse
        ensures { DisconnectResponseNewPromise channel_id status result }
    {
        DisconnectResponse { channel_id, status }
    }

    // The answer that a gateway's disconnect request is owed.
    pub fn build(self, buf: &mut [u8]) -> Result<usize, Refusal>
        ensures { DisconnectResponseBuildPromise self buf.old result buf.new }
    {
        let body = [self.channel_id, self.status];
        frame::write_frame(ServiceType::DisconnectResponse, &body, buf)
    }

    pub fn parse(data: &[u8]) -> Result<DisconnectResponse, Fault>
        ensures { DisconnectParsePromise «data».now result }
    {
        let Status { channel_id, status } = read_status(data)?;
        Ok(DisconnectResponse { channel_id, status })
    }

    pub fn is_ok(self) -> bool
        ensures { DisconnectIsOkPromise self result }
    {
        self.status == 0
    }
}

// A request of 16 bytes: the channel, a zero, the control endpoint.
fn request(
    service_type: ServiceType,
    channel_id: u8,
    control_endpoint: Hpai,
    buf: &mut [u8],
) -> Result<usize, Refusal>
    ensures { RequestPromise service_type channel_id control_endpoint buf.old result buf.new }
{
    let front = [channel_id, 0];
    let endpoint = control_endpoint.to_bytes();
    frame::write_frame2(service_type, &front, &endpoint, buf)
}

// A response of 2 bytes or more.
fn read_status(data: &[u8]) -> Result<Status, Fault>
    ensures { StatusPromise «data».now result }
{
    if data.len() < 2 {
        return Err(Fault {
            why: Refusal::BufferTooSmall,
            at: data.len(),
        });
    }
    Ok(Status {
        channel_id: data[0],
        status: data[1],
    })
}
