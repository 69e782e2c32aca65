// The lines of an inspection.
ghost use Rattle.std.specs.Prelude.{◌≡◌, ◌≤◌};
ghost use Rattle.inspection.specs.Lines.{HeadingPromise, closing, LinePromise, EndingPromise, NumberedPromise, PutPromise, cut_front};

use frame::Judged;
use wire::Refusal;

// The first line: whether the bytes start as a capture does.
pub fn heading(kip: bool, out: &mut [u8]) -> Result<usize, Refusal>
    ensures { HeadingPromise kip out.old result out.new }
{
    if kip {
        wire::write(b"KIP 1\n", out)
    } else {
        wire::write(b"not KIP 1\n", out)
    }
}

// The record's number in the capture, then service and total length, or the number of a refusal, whichever it is.
pub fn line(n: u64, judged: Result<Judged, u8>, out: &mut [u8]) -> Result<usize, Refusal>
    ensures { LinePromise n judged out.old result out.new }
{
    match judged {
        Ok(judged) => {
            let [a, b, c, d] = digits::hex4(judged.service);
            numbered(n, &[b' ', a, b, c, d, b' '], judged.total as u64, out)
        }
        Err(number) => numbered(n, b" refused ", number as u64, out),
    }
}

// A number, then what closes the line. The digits are stored where they stand: no contract says which bytes `write!` leaves in a cursor, and pieces that are made first and then copied take the inspection of small records a third longer.
#[tactic(auto, using(digits::specs::DigitLaws::places_most))]
fn numbered(n: u64, text: &[u8], last: u64, out: &mut [u8]) -> Result<usize, Refusal>
    ensures { NumberedPromise n text.now last out.old result out.new }
{
    let to_text = digits::places(n);
    let size = close(text, last, out, to_text)?;
    digits::put_digits(n, out, 0, to_text);
    Ok(to_text + size)
}

// The last lines: `cut` where a record is unfinished, and how many whole ones there were.
pub fn ending(n: u64, cut: bool, out: &mut [u8]) -> Result<usize, Refusal>
    ensures { EndingPromise n cut out.old result out.new }
{
    let front = cut_line(cut);
    let size = close(b"records ", n, out, front.len())?;
    wire::copy_at(front, out, 0);
    Ok(front.len() + size)
}

fn cut_line(cut: bool) -> &'static [u8]
    ensures { result.now ≡ cut_front cut }
{
    if cut { b"cut\n" } else { b"" }
}

// A text, a number and a line feed, from a place on, or none of them.
// Its two callers have stored at most twenty bytes.
#[tactic(auto, using(digits::specs::DigitLaws::places_most))]
fn close(text: &[u8], n: u64, out: &mut [u8], at: usize) -> Result<usize, Refusal>
    requires { at ≤ 20 }
    ensures { PutPromise (closing text.now n) at out.old result out.new }
{
    let to_number = at + text.len();
    let feed = to_number + digits::places(n);
    if out.len() <= feed {
        return Err(Refusal::BufferTooSmall);
    }
    wire::copy_at(text, out, at);
    digits::put_digits(n, out, to_number, feed);
    wire::copy_at(b"\n", out, feed);
    Ok(feed + 1 - at)
}
