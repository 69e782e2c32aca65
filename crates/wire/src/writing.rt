// What records are written by: one piece, or three one behind another.
ghost use Rattle.wire.specs.Writing.{WritePromise, Write3Promise};

use crate::copying::copy_all;
use crate::layout::copy_at;
use crate::refusals::Refusal;

// Writes all of bytes at the start of buf.
pub fn write(bytes: &[u8], buf: &mut [u8]) -> Result<usize, Refusal>
    ensures { WritePromise bytes.now buf.old result buf.new }
{
    if buf.len() < bytes.len() {
        return Err(Refusal::BufferTooSmall);
    }
    copy_all(bytes, buf, 0);
    Ok(bytes.len())
}

// Writes three pieces, one behind another, at the start of buf; two functions, since a list of pieces would be walked by its index. Their lengths are asked without a sum that could wrap.
pub fn write3(a: &[u8], b: &[u8], c: &[u8], buf: &mut [u8]) -> Result<usize, Refusal>
    ensures { Write3Promise a.now b.now c.now buf.old result buf.new }
{
    if buf.len() < a.len() {
        return Err(Refusal::BufferTooSmall);
    }
    if buf.len() - a.len() < b.len() {
        return Err(Refusal::BufferTooSmall);
    }
    if buf.len() - a.len() - b.len() < c.len() {
        return Err(Refusal::BufferTooSmall);
    }
    copy_at(a, buf, 0);
    copy_at(b, buf, a.len());
    copy_at(c, buf, a.len() + b.len());
    Ok(a.len() + b.len() + c.len())
}
