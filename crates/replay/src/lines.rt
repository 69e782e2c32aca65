// The line of what a call told. A piece that does not fit is left out, and the line then differs from the one expected: `LinePromise` says so, and std's formatting would write a part of it.
ghost use Rattle.std.specs.Prelude.{◌≤◌, length, map};
ghost use Rattle.digits.specs.Digits.{decimal};
ghost use Rattle.replay.specs.Lines as ReplayLines;

use crate::telling::Told;

pub fn line(t: Told, buf: &[u8], out: &mut [u8]) -> usize
    ensures { ReplayLines.LinePromise t buf.now out.old result out.new }
{
    let a = decimal(out, 0, u64::from(t.number));
    let b = numbers(out, a, b" ", &t.values, t.count);
    let c = if t.lends { buffer(out, b, buf) } else { b };
    let d = numbers(out, c, b" @", &t.offsets, t.refusals);
    text(out, d, b"\n")
}

// The first `count` of the numbers, a mark before each.
fn numbers(out: &mut [u8], at: usize, mark: &[u8], ns: &[usize], count: usize) -> usize
    ensures { ReplayLines.PiecesPromise (ReplayLines.numbers mark.now ns.now count) out.old at result out.new }
{
    let mut to = at;
    for n in ns.iter().take(count) {
        to = text(out, to, mark);
        to = decimal(out, to, *n as u64);
    }
    to
}

fn buffer(out: &mut [u8], at: usize, buf: &[u8]) -> usize
    ensures { ReplayLines.PiecesPromise (ReplayLines.buffer buf.now) out.old at result out.new }
{
    let k = touched(buf);
    let a = text(out, at, b" | ");
    let b = bytes(out, a, &buf[..k]);
    let c = text(out, b, b"+");
    decimal(out, c, (buf.len() - k) as u64)
}

fn bytes(out: &mut [u8], at: usize, part: &[u8]) -> usize
    ensures { ReplayLines.PiecesPromise (map ReplayLines.hex_byte part.now) out.old at result out.new }
{
    let mut to = at;
    for x in part {
        to = hex(out, to, *x);
    }
    to
}

// What the lent buffer holds at a place before each call.
pub(crate) fn pattern(i: usize) -> u8
    ensures { ReplayLines.PatternPromise i result }
{
    (i % 251 + 1) as u8
}

// Up to the last byte that is not the pattern's.
fn touched(buf: &[u8]) -> usize
    ensures told { ReplayLines.TouchedPromise buf.now result }
    ensures within { result ≤ length buf.now }
{
    let mut k = 0;
    for (i, x) in buf.iter().enumerate() {
        if *x != pattern(i) {
            k = i + 1;
        }
    }
    k
}

fn hex(out: &mut [u8], at: usize, x: u8) -> usize
    ensures { ReplayLines.PiecePromise (ReplayLines.hex_byte x) out.old at result out.new }
{
    let pair = [
        digits::hex_digit(u16::from(x / 16)),
        digits::hex_digit(u16::from(x)),
    ];
    text(out, at, &pair)
}

#[tactic(auto, using(digits::specs::DigitLaws::decimal_stored))]
fn decimal(out: &mut [u8], at: usize, n: u64) -> usize
    ensures { ReplayLines.PiecePromise (decimal n) out.old at result out.new }
{
    let count = digits::places(n);
    if out.len() < at || out.len() - at < count {
        return at;
    }
    let end = at + count;
    digits::put_digits(n, out, at, end);
    end
}

fn text(out: &mut [u8], at: usize, s: &[u8]) -> usize
    ensures { ReplayLines.PiecePromise s.now out.old at result out.new }
{
    if out.len() < at || out.len() - at < s.len() {
        return at;
    }
    wire::copy_at(s, out, at);
    at + s.len()
}
