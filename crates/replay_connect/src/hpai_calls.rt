// The calls of frame.rs on an Hpai, 9 to 11.
use hpai::Hpai;
use replay::Told;

// The seven values of an Hpai.
pub(crate) fn values(h: Hpai) -> [usize; 7] {
    let ip = h.ip_address;
    [
        usize::from(h.structure_length),
        usize::from(h.host_protocol),
        usize::from(ip[0]),
        usize::from(ip[1]),
        usize::from(ip[2]),
        usize::from(ip[3]),
        usize::from(h.port),
    ]
}

fn told(h: Hpai) -> Told {
    let mut t = replay::few(7, [0; 4]);
    t.values[..7].copy_from_slice(&values(h));
    t
}

fn address_at(args: &[u8], from: usize) -> [u8; 4] {
    let s = wire::part(args, from, args.len());
    [
        wire::byte_at(s, 0),
        wire::byte_at(s, 1),
        wire::byte_at(s, 2),
        wire::byte_at(s, 3),
    ]
}

// The Hpai whose eight field bytes stand at a place.
pub(crate) fn read_at(args: &[u8], from: usize) -> Hpai {
    let s = wire::part(args, from, args.len());
    Hpai {
        structure_length: wire::byte_at(s, 0),
        host_protocol: wire::byte_at(s, 1),
        ip_address: address_at(s, 2),
        port: wire::word_at(s, 6),
    }
}

pub(crate) fn new(args: &[u8]) -> Told {
    told(Hpai::new(address_at(args, 0), wire::word_at(args, 4)))
}

// Alike in two types: each call of the comparison has its function, and a trait would be longer.
pub(crate) fn parse(args: &[u8]) -> Told {
    match Hpai::parse(args) {
        Ok(h) => told(h),
        Err(fault) => replay::refused(fault, 7),
    }
}

pub(crate) fn encode(args: &[u8], buf: &mut [u8]) -> Told {
    replay::written(read_at(args, 0).encode(buf))
}
