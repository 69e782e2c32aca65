// What the program knows of its buffers from turn to turn, around the reads and writes that no contract can say.
ghost use Rattle.inspection.specs.Turns.{BeginPromise, WrittenOutPromise, ReadOnPromise, ToFrontPromise};

use crate::scanning::Spot;

// Where the scan is, and how far the input buffer is read: fixed memory, so the buffer's length says only how much fits.
#[derive(Clone, Copy)]
pub struct Progress {
    pub spot: Spot,
    pub have: usize,
}

// Before anything is read. The first record stands behind the start.
pub fn begin() -> Progress
    ensures { BeginPromise result }
{
    let spot = Spot {
        at: kip::START_SIZE,
        used: 0,
        n: 0,
    };
    Progress { spot, have: 0 }
}

// What was gathered is written out.
pub fn written_out(progress: Progress) -> Progress
    ensures { WrittenOutPromise progress result }
{
    let spot = Spot {
        used: 0,
        ..progress.spot
    };
    Progress { spot, ..progress }
}

// As many bytes were read behind what was there, or as many of them as the buffer holds.
pub fn read_on(input: &[u8], progress: Progress, count: usize) -> Progress
    ensures { ReadOnPromise input.now progress count result }
{
    let have = progress.have.saturating_add(count).min(input.len());
    Progress { have, ..progress }
}

// What is not handed on moves to the front. What stands there is left alone: a long record that comes in small pieces would else be moved once a piece.
pub fn to_front(input: &mut [u8], progress: Progress) -> Progress
    ensures { ToFrontPromise input.old progress result input.new }
{
    let at = progress.spot.at;
    let have = progress.have;
    let spot = Spot {
        at: 0,
        ..progress.spot
    };
    if input.len() < have || have < at {
        return Progress { spot, have: 0 };
    }
    if at > 0 {
        input.copy_within(at..have, 0);
    }
    Progress {
        spot,
        have: have - at,
    }
}
