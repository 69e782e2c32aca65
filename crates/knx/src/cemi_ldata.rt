// From cEMI to L_Data in one call, in the crate's count and in KNX's own.
ghost use Rattle.std.specs.Prelude.{◌≡◌};
ghost use Rattle.pci.specs.Application.{code_of};
ghost use Rattle.ldata.specs.Count.{count_by};
ghost use Rattle.knx.specs.CemiLData.{CemiLDataPromise, CemiLDataStandardPromise, CemiLDataInPromise, AnswerInPromise, RefusedPromise, Accepted, ReadPromise, ServiceInPromise, named_in};

use cemi::CEMIFrame;
use ldata::{Counting, LDataFields};
use wire::Fault;

// C has no Result. A number of 01 and, beside 0, the fields of cEMI and L_Data, and where the data stands in the cEMI bytes; else the offset of the field that decided.
#[repr(C)]
#[derive(Clone, Copy)]
pub struct KnxLData {
    pub offset: usize,
    pub start: usize,
    pub end: usize,
    pub source: u16,
    pub destination: u16,
    pub apci_code: u16,
    pub message_code: u8,
    pub control_1: u8,
    pub control_2: u8,
    pub npdu_length: u8,
    pub tpci_kind: u8,
    pub tpci_sequence: u8,
    pub apci_named: u8,
    pub control_code: u8,
    pub six_bit: u8,
    pub number: u8,
}

pub fn knx_cemi_ldata(data: &[u8]) -> KnxLData
    ensures { CemiLDataPromise «data».now result }
{
    ldata_in(Counting::Crate, data)
}

// Its own name for C: in KNX's own count.
pub fn knx_cemi_ldata_standard(data: &[u8]) -> KnxLData
    ensures { CemiLDataStandardPromise «data».now result }
{
    ldata_in(Counting::Standard, data)
}

fn ldata_in(counting: Counting, data: &[u8]) -> KnxLData
    ensures { CemiLDataInPromise counting «data».now result }
{
    match answer_in(counting, data) {
        Ok(fields) => read(counting, data, fields),
        Err(fault) => refused(fault),
    }
}

fn answer_in(counting: Counting, data: &[u8]) -> Result<LDataFields, Fault>
    ensures { AnswerInPromise counting «data».now result }
{
    match CEMIFrame::parse(data) {
        Ok(frame) => frame.as_ldata_in(counting, data),
        Err(fault) => Err(fault),
    }
}

// TPCI and APCI are read off their bytes, which costs less than by way of their names.
// Its one caller owes the premise; a struct for that would be longer.
fn read(counting: Counting, data: &[u8], fields: LDataFields) -> KnxLData
    requires { Accepted counting «data».now fields }
    ensures { ReadPromise counting «data».now result }
{
    let base = 2 + wire::byte_at(data, 1) as usize;
    let rest = wire::part(data, base, data.len());
    let tpci = wire::byte_at(rest, 7);
    let kind = pci::kind_in(tpci);
    let is_data = kind < 2;
    let service = service_in(counting, is_data, tpci, wire::byte_at(rest, 8));
    KnxLData {
        offset: 0,
        start: base + ldata::data_start(is_data),
        end: base + counting.data_end(fields.npdu_length),
        source: fields.source.to_u16(),
        destination: fields.destination_raw,
        apci_code: service.apci_code,
        message_code: wire::byte_at(data, 0),
        control_1: fields.ctrl1.to_u8(),
        control_2: fields.ctrl2.to_u8(),
        npdu_length: fields.npdu_length,
        tpci_kind: kind,
        tpci_sequence: pci::sequence_in(tpci),
        apci_named: service.apci_named,
        control_code: service.control_code,
        six_bit: service.six_bit,
        number: 0,
    }
}

// The APCI in three numbers, and the six-bit number.
#[derive(Clone, Copy)]
struct Service {
    apci_named: u8,
    apci_code: u16,
    control_code: u8,
    six_bit: u8,
}

// A data packet has no control code, and a control packet no name, no application code and no six-bit number.
fn service_in(counting: Counting, is_data: bool, first: u8, second: u8) -> Service
    ensures { ServiceInPromise counting is_data first second result }
{
    if is_data {
        return Service {
            apci_named: named(first, second),
            apci_code: pci::code_in(first, second),
            control_code: 0,
            six_bit: pci::extract_6bit_value(second),
        };
    }
    Service {
        apci_named: 0,
        apci_code: 0,
        control_code: control_code(counting, first),
        six_bit: 0,
    }
}

fn named(first: u8, second: u8) -> u8
    ensures { result ≡ named_in first second }
{
    u8::from(pci::is_named_in(first, second))
}

// The crate's count has none.
fn control_code(counting: Counting, first: u8) -> u8
    ensures { result ≡ code_of ((count_by counting).control_apci first) }
{
    match counting {
        Counting::Crate => 0,
        Counting::Standard => pci::control_code_in(first),
    }
}

fn refused(fault: Fault) -> KnxLData
    ensures { RefusedPromise fault result }
{
    KnxLData {
        offset: fault.at,
        start: 0,
        end: 0,
        source: 0,
        destination: 0,
        apci_code: 0,
        message_code: 0,
        control_1: 0,
        control_2: 0,
        npdu_length: 0,
        tpci_kind: 0,
        tpci_sequence: 0,
        apci_named: 0,
        control_code: 0,
        six_bit: 0,
        number: fault.why.number(),
    }
}
