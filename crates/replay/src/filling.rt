// How a buffer is filled from a reader: by reads, turn after turn, or by the reader's own read_exact, which may give bytes that its reads do not.
ghost use Rattle.replay.specs.Records.{FilledPromise};

use crate::records;
use std::io;
use std::io::Read;

pub(crate) trait Filling {
    fn filled<R: Read>(input: &mut R, buf: &mut [u8]) -> io::Result<bool>
        ensures { FilledPromise (R.remaining input.old) (R.remaining input.new) buf.new result };
}

pub(crate) struct ByReads;

impl Filling for ByReads {
    // Drawn in: the eight programs go by it, and a call of its own costs each record 16 instructions.
    #[inline(always)]
    fn filled<R: Read>(input: &mut R, buf: &mut [u8]) -> io::Result<bool> {
        records::filled(input, buf)
    }
}

pub(crate) struct Exactly;

impl Filling for Exactly {
    fn filled<R: Read>(input: &mut R, buf: &mut [u8]) -> io::Result<bool> {
        input.read_exact(buf)?;
        Ok(true)
    }
}
