// Bytes and big-endian numbers of a slice, and copying into a lent one: total, so that a caller asks no index.
ghost use Rattle.wire.specs.Layout.{WordPromise, HighPromise, LowPromise, ByteAtPromise, WordAtPromise, CopyPromise};

use crate::copying::copy_all;

// The number of two bytes, the high one first.
pub fn word(first: u8, second: u8) -> u16
    ensures { WordPromise first second result }
{
    u16::from_be_bytes([first, second])
}

pub fn high(n: u16) -> u8
    ensures { HighPromise n result }
{
    n.to_be_bytes()[0]
}

pub fn low(n: u16) -> u8
    ensures { LowPromise n result }
{
    n.to_be_bytes()[1]
}

// The byte at a place; 0 past the end.
pub fn byte_at(s: &[u8], at: usize) -> u8
    ensures { ByteAtPromise s.now at result }
{
    s.get(at).copied().unwrap_or(0)
}

// The number of the two bytes at a place; a byte past the end counts as 0.
pub fn word_at(s: &[u8], at: usize) -> u16
    ensures { WordAtPromise s.now at result }
{
    if at < s.len() {
        word(byte_at(s, at), byte_at(s, at + 1))
    } else {
        0
    }
}

// Copies all of src into dst from a place on; writes nothing where it does not fit.
pub fn copy_at(src: &[u8], dst: &mut [u8], at: usize)
    ensures { CopyPromise src.now dst.old at dst.new }
{
    if dst.len() < at {
        return;
    }
    if dst.len() - at < src.len() {
        return;
    }
    copy_all(src, dst, at);
}
