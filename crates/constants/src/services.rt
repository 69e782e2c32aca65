// The eight services, by name and by code.
ghost use Rattle.constants.specs.Services.{FromPromise, ToPromise};

use wire::{Fault, Refusal};

pub const SERVICE_CONNECT_REQUEST: u16 = 0x0205;

pub const SERVICE_CONNECTIONSTATE_REQUEST: u16 = 0x0207;

pub const SERVICE_DISCONNECT_REQUEST: u16 = 0x0209;

pub const SERVICE_TUNNELING_REQUEST: u16 = 0x0420;

pub const SERVICE_TUNNELING_ACK: u16 = 0x0421;

#[derive(Clone, Copy)]
pub enum ServiceType {
    ConnectRequest,
    ConnectResponse,
    ConnectionstateRequest,
    ConnectionstateResponse,
    DisconnectRequest,
    DisconnectResponse,
    TunnellingRequest,
    TunnellingAck,
}

impl ServiceType {
    // Not TryFrom: 01 and the published crate name from_u16 and to_u16, and a second name would say the same twice.
    pub fn from_u16(code: u16) -> Result<ServiceType, Fault>
        ensures { FromPromise code result }
    {
        match code {
            0x0205 => Ok(ServiceType::ConnectRequest),
            0x0206 => Ok(ServiceType::ConnectResponse),
            0x0207 => Ok(ServiceType::ConnectionstateRequest),
            0x0208 => Ok(ServiceType::ConnectionstateResponse),
            0x0209 => Ok(ServiceType::DisconnectRequest),
            0x020A => Ok(ServiceType::DisconnectResponse),
            0x0420 => Ok(ServiceType::TunnellingRequest),
            0x0421 => Ok(ServiceType::TunnellingAck),
            _ => Err(Fault {
                why: Refusal::UnsupportedServiceType,
                at: 0,
            }),
        }
    }

    pub fn to_u16(self) -> u16
        ensures { ToPromise self result }
    {
        match self {
            ServiceType::ConnectRequest => SERVICE_CONNECT_REQUEST,
            ServiceType::ConnectResponse => 0x0206,
            ServiceType::ConnectionstateRequest => SERVICE_CONNECTIONSTATE_REQUEST,
            ServiceType::ConnectionstateResponse => 0x0208,
            ServiceType::DisconnectRequest => SERVICE_DISCONNECT_REQUEST,
            ServiceType::DisconnectResponse => 0x020A,
            ServiceType::TunnellingRequest => SERVICE_TUNNELING_REQUEST,
            ServiceType::TunnellingAck => SERVICE_TUNNELING_ACK,
        }
    }
}
