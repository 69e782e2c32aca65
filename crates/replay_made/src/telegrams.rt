// cEMI and L_Data frames whose fields no parse read, by the accessors of the fields.
use crate::views;
use address::IndividualAddress;
use cemi::CEMIFrame;
use control::{ControlField1, ControlField2};
use ldata::{Counting, LDataFields};
use replay::Told;
use wire::{Fault, View};

fn frame_at(args: &[u8]) -> CEMIFrame {
    CEMIFrame {
        message_code: variants::message_code_of(wire::byte_at(args, 0)),
    }
}

// Each accessor's own number stands before its values. The offsets of those that refuse come in the same order.
pub(crate) fn cemi(args: &[u8]) -> Told {
    let f = frame_at(args);
    let slice = wire::part(args, 1, args.len());
    let info = f.service_info(slice);
    let mut t = info_length(f.additional_info_length(slice));
    t.values[0] = variants::message_code(f.message_code());
    t.values[1] = replay::flag(f.is_ldata());
    t.values[4..7].copy_from_slice(&views::numbered(info));
    t.values[7] = replay::remainder(f.service_info_part(slice));
    replay::located(t, info.err().map(|fault| fault.at))
}

fn info_length(answer: Result<u8, Fault>) -> Told {
    match answer {
        Ok(n) => replay::few(8, [0, 0, 0, usize::from(n)]),
        Err(fault) => {
            let t = replay::few(8, [0, 0, usize::from(fault.why.number()), 0]);
            replay::located(t, Some(fault.at))
        }
    }
}

pub(crate) fn as_ldata(args: &[u8]) -> Told {
    inside(frame_at(args), wire::part(args, 1, args.len())).unwrap_or_else(|fault| replay::refused(
        fault, 12,
    ))
}

// The fields, and where the data stands in the whole; as in replay_ldata, but by the functions that are given no count.
fn inside(f: CEMIFrame, slice: &[u8]) -> Result<Told, Fault> {
    let l = f.as_ldata(slice)?;
    let info = f.service_info(slice)?;
    let part = f.service_info_part(slice);
    let view = l.data(part)?;
    let whole = View {
        start: replay::moved(info.start, view.start),
        end: replay::moved(info.start, view.end),
    };
    Ok(replay::telegram(l, whole, l.data_part(part)))
}

// Control 1 and 2, source, destination, L, kind, sequence, APCI by its number and the code of `Unknown`.
fn fields_at(args: &[u8]) -> LDataFields {
    LDataFields {
        ctrl1: ControlField1::from_u8(wire::byte_at(args, 0)),
        ctrl2: ControlField2::from_u8(wire::byte_at(args, 1)),
        source: IndividualAddress::from_u16(wire::word_at(args, 2)),
        destination_raw: wire::word_at(args, 4),
        npdu_length: wire::byte_at(args, 6),
        tpci: variants::tpci_of(wire::byte_at(args, 7), wire::byte_at(args, 8)),
        apci: variants::apci_of(wire::byte_at(args, 9), wire::word_at(args, 10)),
    }
}

pub(crate) fn ldata(args: &[u8]) -> Told {
    let f = fields_at(args);
    let slice = wire::part(args, 12, args.len());
    asked(f, f.data(slice), f.data_part(slice))
}

pub(crate) fn ldata_standard(args: &[u8]) -> Told {
    let f = fields_at(args);
    let slice = wire::part(args, 12, args.len());
    asked(
        f,
        f.data_in(Counting::Standard, slice),
        f.data_part_in(Counting::Standard, slice),
    )
}

fn asked(f: LDataFields, view: Result<View, Fault>, part: &[u8]) -> Told {
    let mut t = replay::few(7, [0; 4]);
    t.values[..3].copy_from_slice(&views::numbered(view));
    t.values[3] = replay::remainder(part);
    t.values[4..7].copy_from_slice(&replay::asks(f));
    replay::located(t, view.err().map(|fault| fault.at))
}
