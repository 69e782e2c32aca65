// The additional information of a cEMI frame: where it stands, its records, and a frame around it.
ghost use Rattle.std.specs.Prelude.{◌≡◌};
ghost use Rattle.additional_info.specs.InfoType.{named_of};
ghost use Rattle.knx.specs.Info as KnxInfo;

use crate::building;
use crate::building::KnxWritten;
use additional_info::{AdditionalInfo, AdditionalInfoType};
use cemi::CEMIFrame;
use constants::CEMIMessageCode;
use wire::{Fault, View};

// C has no Result. A number of 01 and, beside 0, a part of the input; else the offset of the field that decided.
#[repr(C)]
#[derive(Clone, Copy)]
pub struct KnxPart {
    pub offset: usize,
    pub start: usize,
    pub end: usize,
    pub number: u8,
}

// C has no Result. A number of 01 and, beside 0 and where one was found, a record: where its data stands, its type, its timestamp; else the offset of the field that decided.
#[repr(C)]
#[derive(Clone, Copy)]
pub struct KnxAdditionalInfo {
    pub offset: usize,
    pub start: usize,
    pub end: usize,
    pub timestamp: u32,
    pub found: u8,
    pub named: u8,
    pub info_type: u8,
    pub timestamped: u8,
    pub number: u8,
}

// C has no Result. A number of 01 and, beside 0, how many there are; else the offset of the field that decided.
#[repr(C)]
#[derive(Clone, Copy)]
pub struct KnxCount {
    pub offset: usize,
    pub count: usize,
    pub number: u8,
}

pub fn knx_cemi_additional_info(data: &[u8]) -> KnxPart
    ensures { KnxInfo.AreaPromise «data».now result }
{
    match CEMIFrame::parse(data) {
        Ok(frame) => part(frame.additional_info(data)),
        Err(fault) => part(Err(fault)),
    }
}

pub fn knx_additional_info(area: &[u8]) -> KnxAdditionalInfo
    ensures { KnxInfo.FirstPromise area.now result }
{
    record(AdditionalInfo::parse(area))
}

pub fn knx_additional_info_nth(area: &[u8], n: usize) -> KnxAdditionalInfo
    ensures { KnxInfo.NthPromise area.now n result }
{
    record(additional_info::nth(area, n))
}

pub fn knx_additional_info_count(area: &[u8]) -> KnxCount
    ensures { KnxInfo.CountPromise area.now result }
{
    match additional_info::count(area) {
        Ok(count) => KnxCount {
            offset: 0,
            count,
            number: 0,
        },
        Err(fault) => KnxCount {
            offset: fault.at,
            count: 0,
            number: fault.why.number(),
        },
    }
}

pub fn knx_additional_info_append(
    area: &[u8],
    info_type: u8,
    data: &[u8],
    out: &mut [u8],
) -> KnxWritten
    ensures { KnxInfo.AppendPromise area.now info_type «data».now out.old result out.new }
{
    let t = AdditionalInfoType::from_u8(info_type);
    building::written(additional_info::append(area, t, data, out))
}

pub fn knx_cemi_build(
    message_code: u8,
    additional_info: &[u8],
    service_info: &[u8],
    out: &mut [u8],
) -> KnxWritten
    ensures { KnxInfo.BuildPromise message_code additional_info.now service_info.now out.old result out.new }
{
    match CEMIMessageCode::from_u8(message_code) {
        Ok(message_code) => {
            let frame = CEMIFrame { message_code };
            building::written(frame.build(additional_info, service_info, out))
        }
        Err(fault) => building::written(Err(fault.why)),
    }
}

fn part(view: Result<View, Fault>) -> KnxPart
    ensures { KnxInfo.PartPromise view result }
{
    match view {
        Ok(view) => KnxPart {
            offset: 0,
            start: view.start,
            end: view.end,
            number: 0,
        },
        Err(fault) => KnxPart {
            offset: fault.at,
            start: 0,
            end: 0,
            number: fault.why.number(),
        },
    }
}

// What was answered for a record, as numbers.
fn record(answer: Result<Option<AdditionalInfo>, Fault>) -> KnxAdditionalInfo
    ensures { KnxInfo.RecordPromise answer result }
{
    match answer {
        Ok(Some(info)) => KnxAdditionalInfo {
            offset: 0,
            start: info.start,
            end: info.end,
            timestamp: info.timestamp.unwrap_or(0),
            found: 1,
            named: named(info.info_type),
            info_type: info.info_type.to_u8(),
            timestamped: u8::from(info.timestamp.is_some()),
            number: 0,
        },
        Ok(None) => none(0, 0),
        Err(fault) => none(fault.why.number(), fault.at),
    }
}

fn none(number: u8, offset: usize) -> KnxAdditionalInfo
    ensures { KnxInfo.NonePromise number offset result }
{
    KnxAdditionalInfo {
        offset,
        start: 0,
        end: 0,
        timestamp: 0,
        found: 0,
        named: 0,
        info_type: 0,
        timestamped: 0,
        number,
    }
}

fn named(t: AdditionalInfoType) -> u8
    ensures { result ≡ named_of t }
{
    u8::from(!matches!(t, AdditionalInfoType::Unknown(_)))
}
