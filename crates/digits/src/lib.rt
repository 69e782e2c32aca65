// Numbers as they are printed.
#![tactic(auto)]

ghost use Rattle.digits.specs.Digits.{PlacesPromise, DigitsPromise, HexDigitPromise, HexPromise};

// How many decimal digits a number has, and 0 has one: the length of a line is known before a byte of it is written.
pub fn places(n: u64) -> usize
    ensures { PlacesPromise n result }
{
    n.max(1).ilog10() as usize + 1
}

// Stores the last digits of a number from one place up to another, the last one first; none where they do not fit.
pub fn put_digits(n: u64, out: &mut [u8], at: usize, end: usize)
    ensures { DigitsPromise n out.old at end out.new }
{
    if end < at || out.len() < end {
        return;
    }
    let mut rest = n;
    // By index: of what is written through `iter_mut().rev()` a proof knows no element.
    for i in (at..end).rev() {
        out[i] = b'0' + (rest % 10) as u8;
        rest /= 10;
    }
}

// Four upper-case digits.
pub fn hex4(n: u16) -> [u8; 4]
    ensures { HexPromise n result }
{
    [
        hex_digit(n / 4096),
        hex_digit(n / 256),
        hex_digit(n / 16),
        hex_digit(n),
    ]
}

// One digit, of the four low bits.
pub fn hex_digit(d: u16) -> u8
    ensures { HexDigitPromise d result }
{
    let low = (d % 16) as u8;
    if low < 10 { 48 + low } else { 55 + low }
}
