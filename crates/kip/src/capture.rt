// A capture's start, and its records one at a time from a lent buffer.
ghost use Rattle.kip.specs.Capture.{StartsPromise, NextPromise};

use wire::View;

// How many bytes the start has: `KIP`, and the version in two.
pub const START_SIZE: usize = 5;

// Whether the bytes are the start of a capture; other bytes, or too few, are another start.
pub fn starts(s: &[u8]) -> bool
    ensures { StartsPromise s.now result }
{
    s.starts_with(b"KIP\x00\x01")
}

// The datagram of the record that starts at a place of the buffer, or none where the buffer does not hold all of it. The next record starts at its end.
pub fn next_record(s: &[u8], at: usize) -> Option<View>
    ensures { NextPromise s.now at result }
{
    let [high, low, behind @ ..] = s.get(at..)? else {
        return None;
    };
    let size = wire::word(*high, *low) as usize;
    if behind.len() < size {
        return None;
    }
    let start = at + 2;
    Some(View {
        start,
        end: start + size,
    })
}
