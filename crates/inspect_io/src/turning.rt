// Turn after turn, from a state that the inspection of some capture reaches to such a state.
ghost use Rattle.std.specs.Prelude.{Err};
ghost use Rattle.inspection.specs.Reaching.{Reached};
ghost use Rattle.inspect_io.specs.Turning.{WritePromise, TurnPromise};

use crate::captures::{Buffers, Capture};
use crate::printing;
use crate::printing::Unwritten;
use crate::reading::{Stopped, Why};
use inspection::{Progress, Stop};
use std::io::Read;

impl<F: Read> Capture<'_, F> {
    // Every turn reads or writes a byte at least, so no capture is long enough to meet this count.
    // The premise is the loop's invariant, which a struct would say again.
    pub(crate) fn turns(
        &mut self,
        rt: &HostRuntime,
        buffers: &mut Buffers,
        progress: Progress,
    ) -> Stopped
        requires { Reached buffers.old.input buffers.old.out progress }
        ensures { TurnPromise buffers.new.input buffers.new.out (Err result) }
    {
        let mut progress = progress;
        for _ in 0..u64::MAX {
            match self.turn(rt, buffers, progress) {
                Ok(next) => progress = next,
                Err(stopped) => return stopped,
            }
        }
        Stopped {
            progress,
            why: Why::TooLong,
        }
    }

    // Scans, and writes what is gathered where a line has no room; else moves what is left to the front and reads on.
    // Its one caller owes the premise; a struct for that would be longer.
    fn turn(
        &mut self,
        rt: &HostRuntime,
        buffers: &mut Buffers,
        progress: Progress,
    ) -> Result<Progress, Stopped>
        requires { Reached buffers.old.input buffers.old.out progress }
        ensures { TurnPromise buffers.new.input buffers.new.out result }
    {
        let read = wire::part(&buffers.input, 0, progress.have);
        let scanned = inspection::scan(read, &mut buffers.out, progress.spot);
        let handed = Progress {
            spot: scanned.spot,
            ..progress
        };
        match scanned.stop {
            Stop::Full => write_out(rt, &buffers.out, handed),
            Stop::Last => Err(Stopped {
                progress: handed,
                why: Why::TooLong,
            }),
            Stop::Short => {
                let front = inspection::to_front(&mut buffers.input, handed);
                self.read_more(rt, buffers, front)
            }
        }
    }
}

fn write_out(rt: &HostRuntime, out: &[u8], progress: Progress) -> Result<Progress, Stopped>
    ensures { WritePromise progress result }
{
    match printing::printed(rt, wire::part(out, 0, progress.spot.used)) {
        Ok(()) => Ok(inspection::written_out(progress)),
        Err(Unwritten) => Err(Stopped {
            progress,
            why: Why::Unwritten,
        }),
    }
}
