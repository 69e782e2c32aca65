// Runs `next`, `replay` and the two that say why they ended over a reader whose reads would block and whose read_exact waits: the first two go by read_exact. `stdout` is typed by hand.
#![tactic(auto)]

use replay::{Calls, Stopped, Told};
use std::io;
use std::io::{ErrorKind, Read};

// Call 4 with the arguments 0A 0B and three lent bytes, call 5 with neither, and six bytes of a third.
const RECORDS: [u8; 22] = [
    4, 0, 0, 2, 0, 0, 3, 10, 11, 5, 0, 0, 0, 0, 0, 0, 6, 0, 0, 0, 0, 0,
];

#[derive(Drop)]
struct Waiting<'a> {
    left: &'a [u8],
}

impl Read for Waiting<'_> {
    fn read(&mut self, _buf: &mut [u8]) -> io::Result<usize> {
        Err(io::Error::from(ErrorKind::WouldBlock))
    }

    fn read_exact(&mut self, buf: &mut [u8]) -> io::Result<()> {
        if self.left.len() < buf.len() {
            return Err(io::Error::from(ErrorKind::UnexpectedEof));
        }
        wire::copy_at(wire::part(self.left, 0, buf.len()), buf, 0);
        self.left = wire::part(self.left, buf.len(), self.left.len());
        Ok(())
    }
}

// How many calls were answered: each writes a byte, where it is lent one.
#[derive(Drop)]
struct Counted {
    calls: u8,
}

impl Calls for Counted {
    fn answer(&mut self, call: u8, args: &[u8], buf: &mut [u8]) -> Told {
        if self.calls < u8::MAX {
            self.calls += 1;
        }
        wire::copy_at(&[0xFF], buf, 0);
        Told {
            lends: true,
            ..replay::few(2, [usize::from(call), args.len(), 0, 0])
        }
    }
}

fn one_by_one(rt: &HostRuntime) {
    let mut args = [0u8; 4];
    let mut buf = [0u8; 4];
    let mut reader = Waiting { left: &RECORDS };
    for _ in 0..3 {
        let _ = match replay::next(&mut reader, &mut args, &mut buf) {
            Some(record) => println!(rt;
                "next: call {} of {:?} is lent {}",
                record.call,
                wire::part(&args, 0, record.n),
                record.m
            ),
            None => println!(rt; "next: none"),
        };
    }
    let why = replay::try_next(&mut Waiting { left: &RECORDS }, &mut args, &mut buf);
    let _ = println!(rt; "try_next: a read failed: {}", why.is_err());
}

fn replayed(rt: &HostRuntime) {
    let mut all = Counted { calls: 0 };
    replay::replay(&mut Waiting { left: &RECORDS }, &mut rt.stdout(), &mut all);
    let _ = println!(rt; "replay: {} calls", all.calls);
    let mut none = Counted { calls: 0 };
    let why = replay::try_replay(&mut Waiting { left: &RECORDS }, &mut rt.stdout(), &mut none);
    let unread = matches!(why, Err(Stopped::Unread));
    let _ = println!(rt; "try_replay: {} calls, a read failed: {unread}", none.calls);
}

fn main(rt: HostRuntime) {
    one_by_one(&rt);
    replayed(&rt);
}
