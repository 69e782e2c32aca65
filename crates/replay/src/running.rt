// The run of a program that replays: each record's call is answered, and its line written.
ghost use Rattle.std.specs.Prelude.{ℕ, List};
ghost use Rattle.replay.specs.Running.{ReplayPromise, RunsPromise, TryReplayPromise, RunPromise};
ghost use Rattle.replay.specs.declared.telling.Told.{Told};

use crate::filling::{ByReads, Exactly, Filling};
use crate::telling::Told;
use crate::{lines, records};
use std::env::{Env, FillError};
use std::io::{Read, Write};

// Why a run ended before its input: a read or a write failed, or it has more records than are counted.
#[derive(Clone, Copy)]
pub enum Stopped {
    Unread,
    Unwritten,
    TooLong,
}

// The calls that a program answers, with what it carries from one to the next.
pub trait Calls {
    // How a call is answered: from what is carried, the call, its arguments and what it is lent, to what it told, what it left there, and what is carried on. A program that gives no relation may answer anything.
    ghost answers: { Self → ℕ → List ℕ → List ℕ → Told → List ℕ → Self → Type 0 } = { λ _ _ _ _ _ _ _. Unit {0} };

    fn answer(&mut self, call: u8, args: &[u8], buf: &mut [u8]) -> Told
        ensures { answers self.old call args.now buf.old result buf.new self.new };

    // Replays standard input, of which nothing is known beforehand. Why it ended is told to nobody: lines are missing then. Where there are arguments behind the program's name its usage is told; they are not read, so no room is lent for them.
    final fn run(&mut self, rt: &HostRuntime, usage: &str)
    where
        Self: Sized,
        ensures { RunPromise answers self.old self.new result }
    {
        if matches!(rt.arg(1, &mut []), Err(FillError::NotPresent)) {
            let _ = try_replay(&mut rt.stdin(), &mut rt.stdout(), self);
        } else {
            let _ = eprintln!(rt; "usage: {usage}");
        }
    }
}

// Replays a reader that fills each buffer by its own read_exact. Why the run ended is not told.
pub fn replay<R: Read, W: Write, C: Calls>(input: &mut R, output: &mut W, calls: &mut C)
    ensures { ReplayPromise (R.remaining input.old) output.old output.new calls.old calls.new × RunsPromise C.answers (R.remaining input.old) (W.contents output.old) (W.contents output.new) output.old output.new calls.old calls.new }
{
    let _ = replay_by::<Exactly, R, W, C>(input, output, calls);
}

// Replays a reader, and answers why the run ended before its input.
pub fn try_replay<R: Read, W: Write, C: Calls>(
    input: &mut R,
    output: &mut W,
    calls: &mut C,
) -> Result<(), Stopped>
    ensures { TryReplayPromise C.answers (R.remaining input.old) (W.contents output.old) (W.contents output.new) output.old output.new calls.old calls.new result }
{
    replay_by::<ByReads, R, W, C>(input, output, calls)
}

// Every turn reads seven bytes, so no input is long enough for all turns.
fn replay_by<F: Filling, R: Read, W: Write, C: Calls>(
    input: &mut R,
    output: &mut W,
    calls: &mut C,
) -> Result<(), Stopped>
    ensures { TryReplayPromise C.answers (R.remaining input.old) (W.contents output.old) (W.contents output.new) output.old output.new calls.old calls.new result }
{
    let mut args = [0u8; 66000];
    let mut buf = [0u8; 66000];
    let mut out = [0u8; 133000];
    for _ in 0..u64::MAX {
        let record = match records::next_by::<F, R>(input, &mut args, &mut buf) {
            Ok(Some(record)) => record,
            Ok(None) => return Ok(()),
            Err(_) => return Err(Stopped::Unread),
        };
        let lent = &mut buf[..record.m];
        let told = calls.answer(record.call, &args[..record.n], lent);
        let used = lines::line(told, lent, &mut out);
        if output.write_all(wire::part(&out, 0, used)).is_err() {
            return Err(Stopped::Unwritten);
        }
    }
    Err(Stopped::TooLong)
}
