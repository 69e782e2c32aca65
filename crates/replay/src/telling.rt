// What a call told.
ghost use Rattle.replay.specs.Telling.{RefusedPromise, FewPromise, LocatedPromise, FlagPromise, MovedPromise, WrittenPromise, RemainderPromise};

use wire::{Fault, Refusal};

// What a line shows, refused or not, so that no Result is plainer; no heap is used, so that fixed arrays have their counts beside them.
// A number of 01 and the first `count` of the values; `lends` where the buffer is shown too; the offsets of the refusals that the line tells.
#[derive(Clone, Copy)]
pub struct Told {
    pub number: u8,
    pub count: usize,
    pub values: [usize; 16],
    pub lends: bool,
    pub refusals: usize,
    pub offsets: [usize; 4],
}

pub fn refused(fault: Fault, count: usize) -> Told
    ensures { RefusedPromise fault count result }
{
    Told {
        number: fault.why.number(),
        count,
        values: [0; 16],
        lends: false,
        refusals: 1,
        offsets: [fault.at, 0, 0, 0],
    }
}

// A call that is done, of at most four values.
pub fn few(count: usize, four: [usize; 4]) -> Told
    ensures { FewPromise count four result }
{
    let mut values = [0; 16];
    values[..4].copy_from_slice(&four);
    Told {
        number: 0,
        count,
        values,
        lends: false,
        refusals: 0,
        offsets: [0; 4],
    }
}

// The offset of a refusal, none where nothing was refused, behind those that the line tells already. No call has more than four.
pub fn located(t: Told, at: Option<usize>) -> Told
    ensures { LocatedPromise t at result }
{
    let mut told = t;
    if let Some(at) = at {
        if told.refusals < 4 {
            told.offsets[told.refusals] = at;
            told.refusals += 1;
        }
    }
    told
}

// Not usize::from at each place: FlagPromise is of this name, and the comparison plants faults in it.
pub fn flag(b: bool) -> usize
    ensures { FlagPromise b result }
{
    usize::from(b)
}

// A place in a part, as a place in the whole; places of a million and more do not occur, and count as 0.
pub fn moved(start: usize, at: usize) -> usize
    ensures { MovedPromise start at result }
{
    if at < 1000000 && start < 1000000 {
        start + at
    } else {
        0
    }
}

// What an encoder or a builder answered; its refusal names no field.
pub fn written(w: Result<usize, Refusal>) -> Told
    ensures { WrittenPromise w result }
{
    let told = match w {
        Ok(n) => few(1, [n, 0, 0, 0]),
        Err(why) => refused(Fault::from(why), 1),
    };
    Told {
        lends: true,
        ..told
    }
}

// A part as one number, of which the remainder is told: the bytes of a part that was handed out, not only where it stands.
pub fn remainder(part: &[u8]) -> usize
    ensures { RemainderPromise part.now result }
{
    usize::from(
        part.iter().fold(
            0,
            |rest: u16, x| ((u32::from(rest) * 256 + u32::from(*x)) % 65521) as u16,
        ),
    )
}
