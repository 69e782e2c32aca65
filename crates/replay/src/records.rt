// The records of calls, from a reader that is lent: standard input in the programs that replay.
ghost use Rattle.replay.specs.Records.{Number24Promise, FillPromise, FilledPromise, NextPromise, TryNextPromise};

use crate::filling::{ByReads, Exactly, Filling};
use crate::lines;
use std::io;
use std::io::Read;

// A call, how many argument bytes it has and how many it lends: counts, since slices of both buffers would have to be lent with it.
#[derive(Clone, Copy)]
pub struct Record {
    pub call: u8,
    pub n: usize,
    pub m: usize,
}

// Reads the next record's arguments by the reader's own read_exact, and prepares the buffer that is lent. Why no record came is not told: one that asks for more than there is ends the run, and so does a read that fails.
pub fn next<R: Read>(input: &mut R, args: &mut [u8], buf: &mut [u8]) -> Option<Record>
    ensures { NextPromise (R.remaining input.old) (R.remaining input.new) result args.new buf.old buf.new }
{
    next_by::<Exactly, R>(input, args, buf).unwrap_or(None)
}

// The same by reads, and why no record came: no whole one was left, or a read failed.
pub fn try_next<R: Read>(
    input: &mut R,
    args: &mut [u8],
    buf: &mut [u8],
) -> io::Result<Option<Record>>
    ensures { TryNextPromise (R.remaining input.old) (R.remaining input.new) result args.new buf.old buf.new }
{
    next_by::<ByReads, R>(input, args, buf)
}

// Reads the next record's arguments, and prepares the buffer that is lent. A record that asks for more than there is counts as none: it ends the run, and lines are missing.
#[tactic(auto, using(crate::specs::Laws::read_from))]
pub(crate) fn next_by<F: Filling, R: Read>(
    input: &mut R,
    args: &mut [u8],
    buf: &mut [u8],
) -> io::Result<Option<Record>>
    ensures { TryNextPromise (R.remaining input.old) (R.remaining input.new) result args.new buf.old buf.new }
{
    let mut head = [0u8; 7];
    if !F::filled(input, &mut head)? {
        return Ok(None);
    }
    let n = number24(&head[1..4]);
    let m = number24(&head[4..7]);
    if args.len() < n || buf.len() < m {
        return Ok(None);
    }
    if !F::filled(input, &mut args[..n])? {
        return Ok(None);
    }
    fill(&mut buf[..m]);
    Ok(Some(Record {
        call: head[0],
        n,
        m,
    }))
}

// Reads until the buffer is full; false where the input ends before. std's read_exact does the same, but its promise does not tell an input that ends from a read that fails.
// Only an interruption brings a turn that reads nothing, and as many in a row do not occur.
pub(crate) fn filled<R: Read>(input: &mut R, buf: &mut [u8]) -> io::Result<bool>
    ensures { FilledPromise (R.remaining input.old) (R.remaining input.new) buf.new result }
{
    let mut at = 0;
    for _ in 0..u64::MAX {
        if at >= buf.len() {
            return Ok(true);
        }
        match input.read(&mut buf[at..]) {
            Ok(0) => return Ok(false),
            Ok(n) => at += n,
            Err(error) => {
                if error.kind() != io::ErrorKind::Interrupted {
                    return Err(error);
                }
            }
        }
    }
    Err(io::Error::from(io::ErrorKind::Interrupted))
}

// Three bytes; those that are missing count as 0.
pub fn number24(s: &[u8]) -> usize
    ensures { Number24Promise s.now result }
{
    usize::from(wire::byte_at(s, 0)) * 65536 + usize::from(wire::word_at(s, 1))
}

fn fill(buf: &mut [u8])
    ensures { FillPromise buf.old buf.new }
{
    for (i, byte) in buf.iter_mut().enumerate() {
        *byte = lines::pattern(i);
    }
}
