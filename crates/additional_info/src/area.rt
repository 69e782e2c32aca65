// An area of additional information: a row of records, each a type byte, a length byte and that many data bytes.
ghost use Rattle.std.specs.Prelude.{◌≡◌, true, drop};
ghost use Rattle.additional_info.specs.Area.{stands, taken, RecordPromise, TimestampPromise, WalkPromise, ParsePromise, CountPromise, NthPromise};

use crate::info_type::AdditionalInfoType;
use wire::{Fault, Refusal};

// One record: its type, its timestamp, and where its data stands in the area. What remains starts at `end`.
#[derive(Clone, Copy)]
pub struct AdditionalInfo {
    pub start: usize,
    pub end: usize,
    pub info_type: AdditionalInfoType,
    pub timestamp: Option<u32>,
}

impl AdditionalInfo {
    // The record at the front of an area; an empty area has none. What stands behind it is not looked at.
    pub fn parse(area: &[u8]) -> Result<Option<AdditionalInfo>, Fault>
        ensures { ParsePromise area.now result }
    {
        if area.is_empty() {
            return Ok(None);
        }
        match taken(area) {
            Some(_) => Ok(Some(record_at(area, 0))),
            None => Err(Fault {
                why: Refusal::InvalidAdditionalInfo,
                at: 0,
            }),
        }
    }
}

// How many records fill the area.
pub fn count(area: &[u8]) -> Result<usize, Fault>
    ensures { CountPromise area.now result }
{
    let all = past(area, area.len());
    if all.at < area.len() {
        return Err(Fault {
            why: Refusal::InvalidAdditionalInfo,
            at: all.at,
        });
    }
    Ok(all.records)
}

// The record behind n others. The whole area has to be readable.
pub fn nth(area: &[u8], n: usize) -> Result<Option<AdditionalInfo>, Fault>
    ensures { NthPromise area.now n result }
{
    let many = count(area)?;
    if many <= n {
        return Ok(None);
    }
    let passed = past(area, n);
    Ok(Some(record_at(area, passed.at)))
}

// How many records were gone past, and where what remains starts.
#[derive(Clone, Copy)]
struct Walked {
    records: usize,
    at: usize,
}

// A call of the recursive walk takes no more records than this, so that any area is walked in little stack.
const MOST: usize = 8;

// Past n records, or to where no whole record stands. A walk that finds fewer than it was asked for is the last.
fn past(area: &[u8], n: usize) -> Walked
    ensures { WalkPromise n area.now result }
{
    let mut records = 0;
    let mut at = 0;
    // No `for`: a turn counts on by as many records as it found, and the next starts behind them.
    while records < n {
        let most = (n - records).min(MOST);
        let next = walk(wire::part(area, at, area.len()), most);
        records += next.records;
        at += next.at;
        if next.records < most {
            break;
        }
    }
    Walked { records, at }
}

// After one record, what remains is an area read by the same rule: 01 names this recursion, so it is no iterator.
fn walk(area: &[u8], n: usize) -> Walked
    ensures { WalkPromise n area.now result }
{
    if n == 0 {
        return Walked { records: 0, at: 0 };
    }
    match taken(area) {
        Some(end) => {
            let rest = walk(wire::part(area, end, area.len()), n - 1);
            Walked {
                records: 1 + rest.records,
                at: end + rest.at,
            }
        }
        None => Walked { records: 0, at: 0 },
    }
}

// How many bytes the record at the front takes, where one stands there whole.
fn taken(area: &[u8]) -> Option<usize>
    ensures { result ≡ taken area.now }
{
    if area.len() < 2 {
        return None;
    }
    let end = 2 + area[1] as usize;
    if area.len() < end {
        return None;
    }
    Some(end)
}

// The record at a place where one stands.
// Its callers owe that one stands there; a struct for that would be longer.
fn record_at(area: &[u8], at: usize) -> AdditionalInfo
    requires { stands (drop at area.now) ≡ true }
    ensures { RecordPromise area.now at result }
{
    let rest = wire::part(area, at, area.len());
    let code = wire::byte_at(rest, 0);
    let end = 2 + wire::byte_at(rest, 1) as usize;
    AdditionalInfo {
        info_type: AdditionalInfoType::from_u8(code),
        timestamp: timestamp_of(code, wire::part(rest, 2, end)),
        start: at + 2,
        end: at + end,
    }
}

// Type 4 with two bytes, type 6 with four.
fn timestamp_of(code: u8, data: &[u8]) -> Option<u32>
    ensures { TimestampPromise code «data».now result }
{
    match (code, data.len()) {
        (0x04, 2) => Some(u32::from(wire::word_at(data, 0))),
        (0x06, 4) => Some(
            u32::from(wire::word_at(data, 0)) * 65536 + u32::from(wire::word_at(data, 2)),
        ),
        _ => None,
    }
}
