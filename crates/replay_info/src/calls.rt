// The calls on additional information, 58 to 64. Argument bytes that are missing count as 0; another call gets a line that no call has.
use additional_info::{AdditionalInfo, AdditionalInfoType};
use cemi::CEMIFrame;
use replay::{Calls, Told};
use wire::Fault;

#[derive(Drop)]
pub(crate) struct InfoCalls;

impl Calls for InfoCalls {
    fn answer(&mut self, call: u8, args: &[u8], buf: &mut [u8]) -> Told {
        // A record names its call by a number.
        match call {
            58 => info_type(args),
            59 => record(AdditionalInfo::parse(args), args),
            60 => count(args),
            61 => nth(args),
            62 => append(args, buf),
            63 => area(args),
            64 => build(args, buf),
            _ => replay::few(0, [0; 4]),
        }
    }
}

fn info_type(args: &[u8]) -> Told {
    let t = AdditionalInfoType::from_u8(wire::byte_at(args, 0));
    replay::few(2, [variants::info_type(t), usize::from(t.to_u8()), 0, 0])
}

fn record(answer: Result<Option<AdditionalInfo>, Fault>, area: &[u8]) -> Told {
    match answer {
        Ok(Some(info)) => stands(info, area),
        Ok(None) => replay::few(9, [0; 4]),
        Err(fault) => replay::refused(fault, 9),
    }
}

// Type, timestamp, where the data stands, and the remainders of the data and of what remains behind it.
fn stands(info: AdditionalInfo, area: &[u8]) -> Told {
    let mut told = replay::few(
        9,
        [
            1,
            variants::info_type(info.info_type),
            usize::from(info.info_type.to_u8()),
            replay::flag(info.timestamp.is_some()),
        ],
    );
    told.values[4] = info.timestamp.unwrap_or(0) as usize;
    told.values[5] = info.start;
    told.values[6] = info.end;
    told.values[7] = replay::remainder(wire::part(area, info.start, info.end));
    told.values[8] = replay::remainder(wire::part(area, info.end, area.len()));
    told
}

fn count(args: &[u8]) -> Told {
    match additional_info::count(args) {
        Ok(n) => replay::few(1, [n, 0, 0, 0]),
        Err(fault) => replay::refused(fault, 1),
    }
}

fn nth(args: &[u8]) -> Told {
    let area = wire::part(args, 3, args.len());
    record(additional_info::nth(area, replay::number24(args)), area)
}

// An area behind its length in three bytes, which stand from 1 on.
fn area_in(args: &[u8]) -> &[u8] {
    wire::part(args, 4, area_end(args))
}

fn area_end(args: &[u8]) -> usize {
    replay::moved(4, replay::number24(wire::part(args, 1, args.len())))
}

fn append(args: &[u8], buf: &mut [u8]) -> Told {
    let t = AdditionalInfoType::from_u8(wire::byte_at(args, 0));
    let data = wire::part(args, area_end(args), args.len());
    replay::written(additional_info::append(area_in(args), t, data, buf))
}

fn area(args: &[u8]) -> Told {
    shown(args).unwrap_or_else(|fault| replay::refused(fault, 3))
}

fn shown(args: &[u8]) -> Result<Told, Fault> {
    let f = CEMIFrame::parse(args)?;
    let view = f.additional_info(args)?;
    let rest = replay::remainder(f.additional_info_part(args));
    Ok(replay::few(3, [view.start, view.end, rest, 0]))
}

fn build(args: &[u8], buf: &mut [u8]) -> Told {
    let message_code = variants::message_code_of(wire::byte_at(args, 0));
    let frame = CEMIFrame { message_code };
    let rest = wire::part(args, area_end(args), args.len());
    replay::written(frame.build(area_in(args), rest, buf))
}
