// Records that hold their slice and that no parse made: where the body and the data stand in what they hold.
use crate::frames;
use address::IndividualAddress;
use control::{ControlField1, ControlField2};
use ldata::{Counting, LDataFields};
use replay::Told;
use wire::{Fault, View};

// The refusal that the record holds, 0 for none, then the fields and the bytes that it holds.
pub(crate) fn body(args: &[u8]) -> Told {
    let fields = frames::fields_at(wire::part(args, 1, args.len()));
    let data = wire::part(args, 6, args.len());
    let answer = held(args).and(Ok(fields));
    told(borrowed::body_view(data, answer), data)
}

pub(crate) fn data(args: &[u8]) -> Told {
    let data = wire::part(args, 4, args.len());
    told(borrowed::data_view(data, answer(args)), data)
}

pub(crate) fn data_standard(args: &[u8]) -> Told {
    let data = wire::part(args, 4, args.len());
    told(
        borrowed::data_view_in(Counting::Standard, data, answer(args)),
        data,
    )
}

// The refusal that the record holds, 0 for none, then L, kind, sequence, and the data that it holds.
fn answer(args: &[u8]) -> Result<LDataFields, Fault> {
    held(args).and(Ok(fields(args)))
}

// A refusal that no parse made, at an offset that differs from number to number.
fn held(args: &[u8]) -> Result<(), Fault> {
    let number = wire::byte_at(args, 0);
    if number == 0 {
        return Ok(());
    }
    Err(Fault {
        why: variants::refusal_of(number),
        at: 100 + usize::from(number),
    })
}

fn fields(args: &[u8]) -> LDataFields {
    LDataFields {
        ctrl1: ControlField1::from_u8(0x94),
        ctrl2: ControlField2::from_u8(0xE0),
        source: IndividualAddress::from_u16(0x1105),
        destination_raw: 0x0803,
        npdu_length: wire::byte_at(args, 1),
        tpci: variants::tpci_of(wire::byte_at(args, 2), wire::byte_at(args, 3)),
        apci: variants::apci_of(0, 0),
    }
}

// Where a part stands, and its remainder, or why there is none.
fn told(view: Result<View, Fault>, data: &[u8]) -> Told {
    match view {
        Ok(v) => {
            let rest = replay::remainder(wire::part(data, v.start, v.end));
            replay::few(3, [v.start, v.end, rest, 0])
        }
        Err(fault) => replay::refused(fault, 3),
    }
}
