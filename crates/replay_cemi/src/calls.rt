// The calls of cemi.rs on codes, control fields, TPCI and APCI, 28 to 39.
use constants::{CEMIMessageCode, Priority};
use control::{ControlField1, ControlField2};
use pci::{Apci, Tpci};
use replay::{Calls, Told};

#[derive(Drop)]
pub(crate) struct CodeCalls;

impl Calls for CodeCalls {
    fn answer(&mut self, call: u8, args: &[u8], _buf: &mut [u8]) -> Told {
        // A record names its call by a number.
        match call {
            28 => message_code_from(args),
            29 => priority_from(args),
            30 => control1_read(args),
            31 => control1_new(args),
            32 => control1_default(),
            33 => control2_read(args),
            34 => control2_new(args),
            35 => control2_default(),
            36 => tpci_from(args),
            37 => apci_from(args),
            38 => apci_unknown(args),
            39 => six_bits(args),
            _ => replay::few(0, [0; 4]),
        }
    }
}

fn only(value: u8) -> Told {
    replay::few(1, [usize::from(value), 0, 0, 0])
}

// Alike in two types: each call of the comparison has its function, and a trait would be longer.
fn message_code_from(args: &[u8]) -> Told {
    match CEMIMessageCode::from_u8(wire::byte_at(args, 0)) {
        Ok(m) => replay::few(2, [variants::message_code(m), usize::from(m.to_u8()), 0, 0]),
        Err(fault) => replay::refused(fault, 2),
    }
}

fn priority_from(args: &[u8]) -> Told {
    let p = Priority::from_u8(wire::byte_at(args, 0));
    replay::few(2, [variants::priority(p), usize::from(p.to_u8()), 0, 0])
}

fn control1_read(args: &[u8]) -> Told {
    let c = ControlField1::from_u8(wire::byte_at(args, 0));
    let p = c.priority();
    let mut t = replay::few(
        8,
        [
            usize::from(c.raw()),
            replay::flag(c.is_standard_frame()),
            replay::flag(c.do_not_repeat()),
            replay::flag(c.is_broadcast()),
        ],
    );
    t.values[4] = variants::priority(p);
    t.values[5] = usize::from(p.to_u8());
    t.values[6] = replay::flag(c.ack_requested());
    t.values[7] = replay::flag(c.has_error());
    t
}

fn flag_at(args: &[u8], at: usize) -> bool {
    wire::byte_at(args, at) != 0
}

fn control1_new(args: &[u8]) -> Told {
    let priority = variants::priority_of(wire::byte_at(args, 3));
    let c = ControlField1::new(
        flag_at(args, 0),
        flag_at(args, 1),
        flag_at(args, 2),
        priority,
        flag_at(args, 4),
        flag_at(args, 5),
    );
    only(c.to_u8())
}

fn control1_default() -> Told {
    only(ControlField1::default().raw())
}

fn control2_read(args: &[u8]) -> Told {
    let c = ControlField2::from_u8(wire::byte_at(args, 0));
    replay::few(
        4,
        [
            usize::from(c.raw()),
            replay::flag(c.is_group_address()),
            usize::from(c.hop_count()),
            usize::from(c.extended_format()),
        ],
    )
}

fn control2_new(args: &[u8]) -> Told {
    only(ControlField2::new(
        flag_at(args, 0),
        wire::byte_at(args, 1),
        wire::byte_at(args, 2),
    )
    .to_u8())
}

fn control2_default() -> Told {
    only(ControlField2::default().raw())
}

fn tpci_from(args: &[u8]) -> Told {
    let tpci = Tpci::from_byte(wire::byte_at(args, 0));
    replay::few(
        3,
        [
            variants::kind(tpci),
            variants::sequence(tpci),
            replay::flag(tpci.is_data()),
            0,
        ],
    )
}

fn apci(a: Apci) -> Told {
    replay::few(2, [variants::apci(a), usize::from(a.to_u16()), 0, 0])
}

fn apci_from(args: &[u8]) -> Told {
    apci(Apci::from_bytes(wire::byte_at(args, 0), wire::byte_at(args, 1)))
}

fn apci_unknown(args: &[u8]) -> Told {
    apci(Apci::Unknown(wire::word_at(args, 0)))
}

fn six_bits(args: &[u8]) -> Told {
    only(pci::extract_6bit_value(wire::byte_at(args, 0)))
}
