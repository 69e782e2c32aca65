// Reading, and why a capture goes no further.
ghost use Rattle.std.specs.Prelude.{◌≤◌, length};
ghost use Rattle.inspect_io.specs.Reading.{ReadMore, ReadStartPromise};

use crate::captures::{Buffers, Capture};
use crate::printing;
use inspection::Progress;
use std::io::Read;

// The capture ended; a read failed, which is not its end; a write failed; or it has more records than are counted.
#[derive(Clone, Copy)]
pub(crate) enum Why {
    Ended,
    Unread,
    Unwritten,
    TooLong,
}

// A capture that goes no further, and where it stands.
#[derive(Clone, Copy)]
pub(crate) struct Stopped {
    pub(crate) progress: Progress,
    pub(crate) why: Why,
}

impl<F: Read> Capture<'_, F> {
    // Reads until the start is there, or nothing more comes.
    pub(crate) fn read_start(
        &mut self,
        rt: &HostRuntime,
        buffers: &mut Buffers,
    ) -> Result<Progress, Stopped>
        ensures { ReadStartPromise buffers.new.input result }
    {
        let mut progress = inspection::begin();
        while progress.have < kip::START_SIZE {
            progress = self.read_more(rt, buffers, progress)?;
        }
        Ok(progress)
    }

    // Reads once behind what is there. A read that brings nothing is the capture's end; why one failed is told at once.
    // Its callers owe that what was read fits; a Progress is handed on without the buffer that it is of.
    pub(crate) fn read_more(
        &mut self,
        rt: &HostRuntime,
        buffers: &mut Buffers,
        progress: Progress,
    ) -> Result<Progress, Stopped>
        requires { progress.have ≤ length buffers.old.input }
        ensures { ReadMore buffers.old.input buffers.old.out progress buffers.new.input buffers.new.out result }
    {
        match self.file.read(&mut buffers.input[progress.have..]) {
            Ok(0) => Err(Stopped {
                progress,
                why: Why::Ended,
            }),
            Ok(count) => Ok(inspection::read_on(&buffers.input, progress, count)),
            Err(error) => {
                printing::fail(rt, self.name, error);
                Err(Stopped {
                    progress,
                    why: Why::Unread,
                })
            }
        }
    }
}
