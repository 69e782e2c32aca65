// Standard output, and standard error for what goes wrong.
use std::io;
use std::io::{Cursor, Write};

// Nothing more can be written. Why is told already.
#[derive(Clone, Copy)]
pub(crate) struct Unwritten;

// Writes to standard output, or says why it could not.
pub(crate) fn printed(rt: &HostRuntime, bytes: &[u8]) -> Result<(), Unwritten> {
    rt.write_all(bytes).map_err(|error| write_failed(rt, error))
}

// Where nobody reads the output any more, the run ends without a word.
fn write_failed(rt: &HostRuntime, error: io::Error) -> Unwritten {
    if error.kind() != io::ErrorKind::BrokenPipe {
        fail(rt, b"standard output", error);
    }
    Unwritten
}

// What failed, and why.
pub(crate) fn fail(rt: &HostRuntime, name: &[u8], error: io::Error) {
    let mut text = Cursor::new([0u8; 256]);
    let _ = write!(text, "{error}");
    let size = text.position() as usize;
    told(rt, name);
    told(rt, b": ");
    told(rt, reason(wire::part(text.get_ref(), 0, size)));
    told(rt, b"\n");
}

// The system's words for an error, without the number that stands behind them.
fn reason(text: &[u8]) -> &[u8] {
    let Ok(text) = str::from_utf8(text) else {
        return text;
    };
    let words = text
        .split_once(" (os error ")
        .map_or(text, |(words, _)| words);
    words.as_bytes()
}

// Writes to standard error. Where that fails, there is no place left to say so.
pub(crate) fn told(rt: &HostRuntime, bytes: &[u8]) {
    let _ = rt.stderr().write_all(bytes);
}
