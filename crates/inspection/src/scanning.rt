// The lines of a buffer's whole records, one behind the other.
ghost use Rattle.inspection.specs.Scanning.{HandOnPromise, PutLinePromise, ScanPromise};

use crate::lines;
use frame::Judged;
use wire::Refusal;

// How far a buffer's records are handed on, how much of the output is used, since memory is fixed, and how many records there were.
#[derive(Clone, Copy)]
pub struct Spot {
    pub at: usize,
    pub used: usize,
    pub n: u64,
}

// Why a scan stopped: no whole record is left, a line has no room, or the last record has the largest number. No Option: each is a reason, and ScanPromise says of each where the scan stands.
#[derive(Clone, Copy)]
pub enum Stop {
    Short,
    Full,
    Last,
}

#[derive(Clone, Copy)]
pub struct Scanned {
    pub spot: Spot,
    pub stop: Stop,
}

// Hands on every whole record while its line fits. A record takes two bytes at least, so that the count of turns ends no scan.
pub fn scan(input: &[u8], out: &mut [u8], spot: Spot) -> Scanned
    ensures { ScanPromise input.now out.old spot result out.new }
{
    let mut spot = spot;
    for _ in 0..input.len() {
        match hand_on(input, out, spot) {
            Ok(next) => spot = next,
            Err(stop) => return Scanned { spot, stop },
        }
    }
    Scanned {
        spot,
        stop: Stop::Short,
    }
}

// Hands on the next record, and says where the scan is then or why it stops.
fn hand_on(input: &[u8], out: &mut [u8], spot: Spot) -> Result<Spot, Stop>
    ensures { HandOnPromise input.now out.old spot result out.new }
{
    let record = kip::next_record(input, spot.at).ok_or(Stop::Short)?;
    let n = spot.n.checked_add(1).ok_or(Stop::Last)?;
    let datagram = wire::part(input, record.start, record.end);
    let judged = frame::judge(datagram).map_err(|fault| fault.why.number());
    let size = put_line(n, judged, out, spot.used).or(Err(Stop::Full))?;
    Ok(Spot {
        at: record.end,
        used: spot.used + size,
        n,
    })
}

// A record's line from a place of the output on, or none of it.
fn put_line(n: u64, judged: Result<Judged, u8>, out: &mut [u8], at: usize) -> Result<usize, Refusal>
    ensures { PutLinePromise n judged at out.old result out.new }
{
    if out.len() < at {
        return Err(Refusal::BufferTooSmall);
    }
    lines::line(n, judged, &mut out[at..])
}
