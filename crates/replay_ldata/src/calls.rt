// The calls of cemi.rs on L_Data and cEMI frames, 40 to 44, and the L_Data builder, 45; and in the standard count, 65 to 68.
use address::IndividualAddress;
use cemi::CEMIFrame;
use control::{ControlField1, ControlField2};
use ldata::{Counting, LDataBuilder, LDataFields};
use replay::{Calls, Told};
use wire::{Fault, Refusal, View};

#[derive(Drop)]
pub(crate) struct TelegramCalls;

impl Calls for TelegramCalls {
    fn answer(&mut self, call: u8, args: &[u8], buf: &mut [u8]) -> Told {
        // A record names its call by a number.
        match call {
            40 => told(ldata(Counting::Crate, args), 15),
            41 => told(cemi(args), 4),
            42 => told(service_info(args), 3),
            43 => told(as_ldata(Counting::Crate, args), 12),
            44 => told(as_ldata_set(args), 13),
            45 => ldata_build(Counting::Crate, args, buf),
            65 => told(ldata(Counting::Standard, args), 15),
            66 => told(as_ldata(Counting::Standard, args), 12),
            67 => told(as_ldata_made(args), 12),
            68 => ldata_build(Counting::Standard, args, buf),
            _ => replay::few(0, [0; 4]),
        }
    }
}

// What is told, or a refusal, with zeros for the values.
fn told(answer: Result<Told, Fault>, count: usize) -> Told {
    answer.unwrap_or_else(|fault| replay::refused(fault, count))
}

// The data's bytes come by the record that borrows them.
fn ldata(counting: Counting, args: &[u8]) -> Result<Told, Fault> {
    let f = parsed(counting, args)?;
    let view = data_view(counting, f, args)?;
    let mut t = replay::telegram(f, view, borrowed_data(counting, args));
    let [asked, group, individual] = replay::asks(f);
    t.count = 15;
    t.values[12] = group;
    t.values[13] = individual;
    t.values[14] = asked;
    Ok(t)
}

fn cemi(args: &[u8]) -> Result<Told, Fault> {
    let f = CEMIFrame::parse(args)?;
    let length = f.additional_info_length(args)?;
    let code = f.message_code();
    Ok(replay::few(
        4,
        [
            variants::message_code(code),
            usize::from(code.to_u8()),
            usize::from(length),
            replay::flag(f.is_ldata()),
        ],
    ))
}

fn service_info(args: &[u8]) -> Result<Told, Fault> {
    let f = CEMIFrame::parse(args)?;
    let view = f.service_info(args)?;
    let rest = replay::remainder(f.service_info_part(args));
    Ok(replay::few(3, [view.start, view.end, rest, 0]))
}

fn as_ldata(counting: Counting, args: &[u8]) -> Result<Told, Fault> {
    inside(counting, CEMIFrame::parse(args)?, args)
}

// The L_Data frame in a cEMI frame, and the data that it hands out; its data is found in the part that holds it.
fn inside(counting: Counting, f: CEMIFrame, args: &[u8]) -> Result<Told, Fault> {
    let l = telegram(counting, f, args)?;
    let info = f.service_info(args)?;
    let part = f.service_info_part(args);
    let view = data_view(counting, l, part)?;
    let whole = View {
        start: replay::moved(info.start, view.start),
        end: replay::moved(info.start, view.end),
    };
    Ok(replay::telegram(l, whole, data_part(counting, l, part)))
}

// The record's code is set by hand. Whether it is L_Data stands behind the twelve values.
fn as_ldata_set(args: &[u8]) -> Result<Told, Fault> {
    let whole = wire::part(args, 1, args.len());
    CEMIFrame::parse(whole)?;
    let f = frame_at(args);
    let mut t = inside(Counting::Crate, f, whole)?;
    t.count = 13;
    t.values[12] = replay::flag(f.is_ldata());
    Ok(t)
}

// The record's code is the first byte's, whatever code the frame behind it has.
fn as_ldata_made(args: &[u8]) -> Result<Told, Fault> {
    inside(
        Counting::Standard,
        frame_at(args),
        wire::part(args, 1, args.len()),
    )
}

fn frame_at(args: &[u8]) -> CEMIFrame {
    CEMIFrame {
        message_code: variants::message_code_of(wire::byte_at(args, 0)),
    }
}

fn ldata_build(counting: Counting, args: &[u8], buf: &mut [u8]) -> Told {
    let builder = LDataBuilder {
        ctrl1: ControlField1::from_u8(wire::byte_at(args, 0)),
        ctrl2: ControlField2::from_u8(wire::byte_at(args, 1)),
        source: IndividualAddress::from_u16(wire::word_at(args, 2)),
        destination_raw: wire::word_at(args, 4),
        tpci: variants::tpci_of(wire::byte_at(args, 6), wire::byte_at(args, 7)),
        apci_code: wire::word_at(args, 8),
        six_bit: wire::byte_at(args, 10),
    };
    replay::written(built(counting, builder, wire::part(args, 11, args.len()), buf))
}

// In the crate's count each function goes by its own name, in the standard count by the one that is given a count.
fn parsed(counting: Counting, args: &[u8]) -> Result<LDataFields, Fault> {
    match counting {
        Counting::Crate => LDataFields::parse(args),
        Counting::Standard => LDataFields::parse_in(counting, args),
    }
}

fn data_view(counting: Counting, f: LDataFields, args: &[u8]) -> Result<View, Fault> {
    match counting {
        Counting::Crate => f.data(args),
        Counting::Standard => f.data_in(counting, args),
    }
}

fn data_part(counting: Counting, f: LDataFields, args: &[u8]) -> &[u8] {
    match counting {
        Counting::Crate => f.data_part(args),
        Counting::Standard => f.data_part_in(counting, args),
    }
}

fn borrowed_data(counting: Counting, args: &[u8]) -> &[u8] {
    match counting {
        Counting::Crate => borrowed::data_in(args),
        Counting::Standard => borrowed::data_in_count(counting, args),
    }
}

fn telegram(counting: Counting, f: CEMIFrame, args: &[u8]) -> Result<LDataFields, Fault> {
    match counting {
        Counting::Crate => f.as_ldata(args),
        Counting::Standard => f.as_ldata_in(counting, args),
    }
}

fn built(
    counting: Counting,
    builder: LDataBuilder,
    data: &[u8],
    buf: &mut [u8],
) -> Result<usize, Refusal> {
    match counting {
        Counting::Crate => builder.build(data, buf),
        Counting::Standard => builder.build_in(counting, data, buf),
    }
}
