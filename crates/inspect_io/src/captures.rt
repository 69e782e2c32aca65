// One capture: its start, its turns, its end, and what went wrong.
ghost use Rattle.inspect_io.specs.Reading.{StartPromise};
ghost use Rattle.inspect_io.specs.Turning.{LastPromise};

use crate::printing;
use crate::printing::Unwritten;
use crate::reading::{Stopped, Why};
use inspection::Progress;
use std::io::Read;
use wire::Refusal;

// A record has 65,537 bytes at most, so that a buffer without a whole one has room.
pub(crate) const INPUT_SIZE: usize = 131072;

pub(crate) const OUTPUT_SIZE: usize = 65536;

// What is read of a capture and not handed on, and the lines that are gathered. They stand once, in `run`, and each capture is lent them.
#[derive(Drop)]
pub(crate) struct Buffers {
    pub(crate) input: [u8; INPUT_SIZE],
    pub(crate) out: [u8; OUTPUT_SIZE],
}

// A file and the name that its failures are told under.
#[derive(Drop)]
pub(crate) struct Capture<'a, F> {
    pub(crate) file: &'a mut F,
    pub(crate) name: &'a [u8],
}

impl<F: Read> Capture<'_, F> {
    // Prints what there is to say of a capture.
    pub(crate) fn print(
        &mut self,
        rt: &HostRuntime,
        buffers: &mut Buffers,
    ) -> Result<(), Unwritten> {
        match self.read_start(rt, buffers) {
            Ok(progress) => self.inspect(rt, buffers, progress),
            Err(stopped) if matches!(stopped.why, Why::Unread) => Ok(()),
            Err(stopped) => self.inspect(rt, buffers, stopped.progress),
        }
    }

    // The start's line and, where it is one, those of the records.
    // Its one caller owes the premise; a struct for that would be longer.
    fn inspect(
        &mut self,
        rt: &HostRuntime,
        buffers: &mut Buffers,
        progress: Progress,
    ) -> Result<(), Unwritten>
        requires { StartPromise buffers.old.input progress }
    {
        let kip = kip::starts(wire::part(&buffers.input, 0, progress.have));
        let used = inspection::heading(kip, &mut buffers.out).unwrap_or(0);
        printing::printed(rt, wire::part(&buffers.out, 0, used))?;
        if !kip {
            return Ok(());
        }
        let stopped = self.turns(rt, buffers, progress);
        finish(rt, &mut buffers.out, stopped)
    }
}

// Where the capture ended, its last lines; where it could not be told to its end, the lines up to there. Why a read or a write failed is told already.
fn finish(rt: &HostRuntime, out: &mut [u8], stopped: Stopped) -> Result<(), Unwritten> {
    let progress = stopped.progress;
    let lines = wire::part(out, 0, progress.spot.used);
    match stopped.why {
        Why::Ended => {
            printing::printed(rt, lines)?;
            let used = last_lines(progress, out).unwrap_or(0);
            printing::printed(rt, wire::part(out, 0, used))
        }
        Why::Unread => printing::printed(rt, lines),
        Why::Unwritten => Err(Unwritten),
        Why::TooLong => {
            printing::told(rt, b"more records than 64 bits count\n");
            printing::printed(rt, lines)
        }
    }
}

// Whether a record is cut, and how many there were.
fn last_lines(progress: Progress, out: &mut [u8]) -> Result<usize, Refusal>
    ensures { LastPromise progress out.old result out.new }
{
    let spot = progress.spot;
    inspection::ending(spot.n, spot.at < progress.have, out)
}
