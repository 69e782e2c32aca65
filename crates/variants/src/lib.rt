// Numbers for kinds, since a record of bytes has no other form: the variants by the numbers that recorded calls and their lines have for them, 1 and up in the order of 01, for APCI and additional information in that of cemi.rs. They are no codes of KNX: each has a match of its own, so that two variants in each other's place are seen.
#![tactic(auto)]

ghost use Rattle.variants.specs.Variants.{ServicePromise, ServiceOfPromise, MessageCodePromise, MessageCodeOfPromise, PriorityPromise, PriorityOfPromise, ApciPromise, ApciOfPromise, InfoTypePromise, KindPromise, SequencePromise, TpciOfPromise, RefusalOfPromise};

use additional_info::AdditionalInfoType;
use constants::{CEMIMessageCode, Priority, ServiceType};
use pci::{Apci, Tpci};
use wire::Refusal;

pub fn service(service: ServiceType) -> usize
    ensures { ServicePromise service result }
{
    match service {
        ServiceType::ConnectRequest => 1,
        ServiceType::ConnectResponse => 2,
        ServiceType::ConnectionstateRequest => 3,
        ServiceType::ConnectionstateResponse => 4,
        ServiceType::DisconnectRequest => 5,
        ServiceType::DisconnectResponse => 6,
        ServiceType::TunnellingRequest => 7,
        ServiceType::TunnellingAck => 8,
    }
}

// A record names a known one.
pub fn service_of(number: u8) -> ServiceType
    ensures { ServiceOfPromise number result }
{
    match number {
        1 => ServiceType::ConnectRequest,
        2 => ServiceType::ConnectResponse,
        3 => ServiceType::ConnectionstateRequest,
        4 => ServiceType::ConnectionstateResponse,
        5 => ServiceType::DisconnectRequest,
        6 => ServiceType::DisconnectResponse,
        7 => ServiceType::TunnellingRequest,
        _ => ServiceType::TunnellingAck,
    }
}

pub fn message_code(code: CEMIMessageCode) -> usize
    ensures { MessageCodePromise code result }
{
    match code {
        CEMIMessageCode::LDataReq => 1,
        CEMIMessageCode::LDataInd => 2,
        CEMIMessageCode::LDataCon => 3,
        CEMIMessageCode::LRawReq => 4,
        CEMIMessageCode::LRawInd => 5,
        CEMIMessageCode::LRawCon => 6,
        CEMIMessageCode::LBusmonInd => 7,
    }
}

// A record names a known one.
pub fn message_code_of(number: u8) -> CEMIMessageCode
    ensures { MessageCodeOfPromise number result }
{
    match number {
        1 => CEMIMessageCode::LDataReq,
        2 => CEMIMessageCode::LDataInd,
        3 => CEMIMessageCode::LDataCon,
        4 => CEMIMessageCode::LRawReq,
        5 => CEMIMessageCode::LRawInd,
        6 => CEMIMessageCode::LRawCon,
        _ => CEMIMessageCode::LBusmonInd,
    }
}

pub fn priority(priority: Priority) -> usize
    ensures { PriorityPromise priority result }
{
    match priority {
        Priority::System => 1,
        Priority::Normal => 2,
        Priority::Urgent => 3,
        Priority::Low => 4,
    }
}

// A record names a known one.
pub fn priority_of(number: u8) -> Priority
    ensures { PriorityOfPromise number result }
{
    match number {
        1 => Priority::System,
        2 => Priority::Normal,
        3 => Priority::Urgent,
        _ => Priority::Low,
    }
}

// 0 for `Unknown` and 14 for `Control`, whatever the code.
pub fn apci(apci: Apci) -> usize
    ensures { ApciPromise apci result }
{
    match apci {
        Apci::Unknown(_) => 0,
        Apci::GroupValueRead => 1,
        Apci::GroupValueResponse => 2,
        Apci::GroupValueWrite => 3,
        Apci::IndividualAddressWrite => 4,
        Apci::IndividualAddressRead => 5,
        Apci::IndividualAddressResponse => 6,
        Apci::AdcRead => 7,
        Apci::AdcResponse => 8,
        Apci::MemoryRead => 9,
        Apci::MemoryResponse => 10,
        Apci::MemoryWrite => 11,
        Apci::DeviceDescriptorRead => 12,
        Apci::DeviceDescriptorResponse => 13,
        Apci::Control(_) => 14,
    }
}

pub fn apci_of(number: u8, code: u16) -> Apci
    ensures { ApciOfPromise number code result }
{
    match number {
        1 => Apci::GroupValueRead,
        2 => Apci::GroupValueResponse,
        3 => Apci::GroupValueWrite,
        4 => Apci::IndividualAddressWrite,
        5 => Apci::IndividualAddressRead,
        6 => Apci::IndividualAddressResponse,
        7 => Apci::AdcRead,
        8 => Apci::AdcResponse,
        9 => Apci::MemoryRead,
        10 => Apci::MemoryResponse,
        11 => Apci::MemoryWrite,
        12 => Apci::DeviceDescriptorRead,
        13 => Apci::DeviceDescriptorResponse,
        14 => Apci::Control((code % 256) as u8),
        _ => Apci::Unknown(code),
    }
}

pub fn kind(tpci: Tpci) -> usize
    ensures { KindPromise tpci result }
{
    match tpci {
        Tpci::UnnumberedData => 0,
        Tpci::NumberedData { sequence: _ } => 1,
        Tpci::UnnumberedControl => 2,
        Tpci::NumberedControl { sequence: _ } => 3,
    }
}

// An unnumbered packet has none, which counts as 0.
pub fn sequence(tpci: Tpci) -> usize
    ensures { SequencePromise tpci result }
{
    match tpci {
        Tpci::UnnumberedData => 0,
        Tpci::NumberedData { sequence } => sequence as usize,
        Tpci::UnnumberedControl => 0,
        Tpci::NumberedControl { sequence } => sequence as usize,
    }
}

pub fn tpci_of(kind: u8, sequence: u8) -> Tpci
    ensures { TpciOfPromise kind sequence result }
{
    match kind {
        0 => Tpci::UnnumberedData,
        1 => Tpci::NumberedData { sequence },
        2 => Tpci::UnnumberedControl,
        _ => Tpci::NumberedControl { sequence },
    }
}

// 0 for `Unknown`, whatever its code.
pub fn info_type(info_type: AdditionalInfoType) -> usize
    ensures { InfoTypePromise info_type result }
{
    match info_type {
        AdditionalInfoType::Unknown(_) => 0,
        AdditionalInfoType::PlMediumInfo => 1,
        AdditionalInfoType::RfMediumInfo => 2,
        AdditionalInfoType::BusmonitorErrorFlags => 3,
        AdditionalInfoType::RelativeTimestamp => 4,
        AdditionalInfoType::TimeDelay => 5,
        AdditionalInfoType::ExtendedRelativeTimestamp => 6,
        AdditionalInfoType::BiBatInfo => 7,
    }
}

pub fn refusal_of(number: u8) -> Refusal
    ensures { RefusalOfPromise number result }
{
    match number {
        1 => Refusal::BufferTooSmall,
        2 => Refusal::InvalidFrame,
        3 => Refusal::UnsupportedVersion,
        4 => Refusal::UnsupportedServiceType,
        5 => Refusal::PayloadTooLarge,
        6 => Refusal::InvalidMessageCode,
        7 => Refusal::AlreadyOpen,
        8 => Refusal::TableFull,
        9 => Refusal::NotOpen,
        10 => Refusal::AwaitsAck,
        11 => Refusal::AwaitsNothing,
        12 => Refusal::NotForTunnels,
        13 => Refusal::FieldOutOfRange,
        _ => Refusal::InvalidAdditionalInfo,
    }
}
