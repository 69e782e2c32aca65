// The captures that the program is asked for, one after the other.
ghost use Rattle.inspect_io.specs.Running.{RunPromise};

use crate::captures::{Buffers, Capture, INPUT_SIZE, OUTPUT_SIZE};
use crate::printing;
use crate::printing::Unwritten;
use std::env::{Env, FillError};
use std::fs::File;
use std::io;

// No path is longer.
const NAME_SIZE: usize = 4096;

// The buffers stand here and are lent from here on. Any number of names is taken, so none is wrong; a file called `--help` is `./--help`.
pub fn run(rt: &HostRuntime)
    ensures { RunPromise result }
{
    let mut buffers = Buffers {
        input: [0; INPUT_SIZE],
        out: [0; OUTPUT_SIZE],
    };
    let mut name = [0; NAME_SIZE];
    let _ = match rt.arg(1, &mut name) {
        Err(FillError::NotPresent) => standard_input(rt, &mut buffers),
        Ok(k) if &name[..k] == b"--help".as_slice() => {
            printing::told(
                rt,
                b"usage: inspect [NAME ..]: captures in files, - for standard input, which is read where there is no name\n",
            );
            Ok(())
        }
        _ => arguments(rt, &mut buffers),
    };
}

// One name after the other, unless nothing more can be written. A name that is longer than a path may be is none.
fn arguments(rt: &HostRuntime, buffers: &mut Buffers) -> Result<(), Unwritten> {
    let mut name = [0; NAME_SIZE];
    for i in 1..usize::MAX {
        match rt.arg(i, &mut name) {
            Ok(k) => named(rt, &name[..k], buffers)?,
            Err(FillError::TooLong) => printing::told(rt, b"argument: File name too long\n"),
            Err(FillError::NotPresent) => break,
        }
    }
    Ok(())
}

// A file, whose name is printed first; `-` is standard input.
fn named(rt: &HostRuntime, name: &[u8], buffers: &mut Buffers) -> Result<(), Unwritten> {
    printing::printed(rt, name)?;
    printing::printed(rt, b":\n")?;
    if name == b"-".as_slice() {
        return standard_input(rt, buffers);
    }
    match open(rt, name) {
        Ok(mut file) => Capture {
            file: &mut file,
            name,
        }
        .print(rt, buffers),
        Err(error) => {
            printing::fail(rt, name, error);
            Ok(())
        }
    }
}

fn standard_input(rt: &HostRuntime, buffers: &mut Buffers) -> Result<(), Unwritten> {
    Capture {
        file: &mut rt.stdin(),
        name: b"standard input",
    }
    .print(rt, buffers)
}

// std opens a file by its name in UTF-8, so a name in no UTF-8 is refused as one that no file has.
fn open(rt: &HostRuntime, name: &[u8]) -> io::Result<File> {
    let path = str::from_utf8(name).or(Err(io::ErrorKind::InvalidFilename))?;
    File::open(rt, path)
}
