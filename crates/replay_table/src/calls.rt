// The calls on a table of tunnels, 46 to 51, and 76, a datagram in KNX's own form: the table is carried from record to record.
use replay::{Calls, Told};
use tunnel::{Said, Tunnel, Wait};
use tunnel_table::{Called, Held, Table};
use tunnelling::Form;
use wire::Fault;

// The table that the last call left.
#[derive(Drop)]
pub(crate) struct TableCalls {
    table: Table,
}

impl TableCalls {
    pub(crate) fn new() -> TableCalls {
        TableCalls {
            table: Table::empty(),
        }
    }

    // What a call gave. A refusal leaves the table as it was.
    fn called(&mut self, answer: Result<Called, Fault>) -> Told {
        match answer {
            Ok(c) => {
                self.table = c.table;
                self.with_places(replay::few(
                    12,
                    [said_number(c.said), c.view.start, c.view.end, c.written],
                ))
            }
            Err(fault) => self.with_places(replay::refused(fault, 12)),
        }
    }

    // The places after the call stand behind four values.
    fn with_places(&self, told: Told) -> Told {
        let mut t = told;
        t.values[4..12].copy_from_slice(&self.table.places.map(place_number));
        t
    }
}

impl Calls for TableCalls {
    fn answer(&mut self, call: u8, args: &[u8], buf: &mut [u8]) -> Told {
        let id = wire::byte_at(args, 0);
        let table = self.table;
        // A record names its call by a number.
        match call {
            46 => {
                self.table = table_of(args);
                self.with_places(replay::few(12, [0; 4]))
            }
            47 => self.called(table.open(id)),
            48 => self.called(table.close(id)),
            49 => self.called(table.timeout(id)),
            50 => lent(self.called(table.send(id, wire::part(args, 1, args.len()), buf))),
            51 => lent(self.called(datagram(table, args, buf))),
            76 => lent(self.called(table.datagram_in(Form::Standard, args, buf))),
            _ => replay::few(0, [0; 4]),
        }
    }
}

// The buffer is shown too.
fn lent(t: Told) -> Told {
    Told { lends: true, ..t }
}

// By `datagram`, or where the output has an odd length by its two halves, which give the same.
fn datagram(table: Table, args: &[u8], buf: &mut [u8]) -> Result<Called, Fault> {
    if buf.len() % 2 == 0 {
        return table.datagram(args, buf);
    }
    table.heard(tunnel_datagram::hear(args), buf)
}

// Five bytes a place: open, id, r, s, wait; a place whose bytes are cut short is free. No From: the layout is this program's record, not the table's.
fn table_of(args: &[u8]) -> Table {
    let mut table = Table::empty();
    for (place, five) in table.places.iter_mut().zip(args.chunks_exact(5)) {
        *place = place_of(five);
    }
    table
}

fn place_of(five: &[u8]) -> Option<Held> {
    if wire::byte_at(five, 0) == 0 {
        return None;
    }
    Some(Held {
        id: wire::byte_at(five, 1),
        tunnel: Tunnel {
            r: wire::byte_at(five, 2),
            s: wire::byte_at(five, 3),
            w: wait_of(wire::byte_at(five, 4)),
        },
    })
}

// A match of its own, as the two below, and not the port's number: two variants exchanged in both would cancel out.
fn wait_of(n: u8) -> Wait {
    match n {
        0 => Wait::Idle,
        1 => Wait::First,
        _ => Wait::Second,
    }
}

fn wait_number(w: Wait) -> u8 {
    match w {
        Wait::Idle => 0,
        Wait::First => 1,
        Wait::Second => 2,
    }
}

fn said_number(said: Said) -> usize {
    match said {
        Said::Nothing => 0,
        Said::Repeat => 1,
        Said::GiveUp => 2,
        Said::Deliver => 3,
        Said::Duplicate => 4,
        Said::OutOfOrder => 5,
        Said::Sent => 6,
        Said::Ignored => 7,
    }
}

// One number for all that a place holds; 0 for a free one.
fn place_number(place: Option<Held>) -> usize {
    match place {
        Some(held) => {
            let tunnel = held.tunnel;
            let s = usize::from(tunnel.s) + 256 * usize::from(wait_number(tunnel.w));
            1 + usize::from(held.id) + 256 * (usize::from(tunnel.r) + 256 * s)
        }
        None => 0,
    }
}
