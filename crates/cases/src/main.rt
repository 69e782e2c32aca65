// 01's cases on both sides that are run and not proved: one line for each, with its number and, where that is 0, the length that is answered.
// Then an area of a quarter of a million records: no proof speaks of the stack that reading it takes. A refusal of the area is shown with its offset.
#![tactic(auto)]

use constants::ServiceType;
use frame::FrameBuilder;
use header::KnxnetIpHeader;
use std::env::{Env, FillError};
use tunnelling::{ConnectionHeader, TunnelingRequest};
use wire::{Fault, Refusal};

// A line that cannot be written is left out, and the next one is tried.
fn row(rt: &impl Print, name: &str, answer: Result<usize, Refusal>) {
    let _ = match answer {
        Ok(size) => println!(rt; "{name}: 0, {size}"),
        Err(why) => {
            let number = why.number();
            println!(rt; "{name}: {number}")
        }
    };
}

fn row_at(rt: &impl Print, name: &str, answer: Result<usize, Fault>) {
    match answer {
        Ok(size) => row(rt, name, Ok(size)),
        Err(fault) => {
            let number = fault.why.number();
            let at = fault.at;
            let _ = println!(rt; "{name}: {number} at {at}");
        }
    }
}

fn header(rt: &impl Print, name: &str, body_length: usize) {
    let made = KnxnetIpHeader::new(ServiceType::TunnellingRequest, body_length);
    let size = made.map(|made| usize::from(made.total_length));
    row(rt, name, size.map_err(|fault| fault.why));
}

fn frame_builder(rt: &impl Print, name: &str, body: &[u8], buf: &mut [u8]) {
    let builder = FrameBuilder::new(ServiceType::TunnellingRequest);
    row(rt, name, builder.build(body, buf));
}

fn tunneling_request(rt: &impl Print, name: &str, cemi: &[u8], buf: &mut [u8]) {
    let request = TunnelingRequest::new(ConnectionHeader::new(21, 0));
    row(rt, name, request.build(cemi, buf));
}

fn builders(rt: &impl Print, bytes: &[u8; 65536], buf: &mut [u8; 65536]) {
    frame_builder(
        rt,
        "FrameBuilder, body 506, buffer 512",
        &bytes[..506],
        &mut buf[..512],
    );
    frame_builder(
        rt,
        "FrameBuilder, body 507, buffer 512",
        &bytes[..507],
        &mut buf[..512],
    );
    let cemi = &bytes[..65526];
    tunneling_request(rt, "cEMI 65526, buffer 65535", cemi, &mut buf[..65535]);
    tunneling_request(rt, "cEMI 65526, buffer 65536", cemi, buf);
}

// Where the record's data ends; 0 where there is none.
fn nth(rt: &impl Print, name: &str, area: &[u8], n: usize) {
    let found = additional_info::nth(area, n);
    row_at(rt, name, found.map(|info| info.map_or(0, |info| info.end)));
}

// Two zeros are a record without data.
fn areas(rt: &impl Print, zeros: &[u8; 524289]) {
    let area = &zeros[..524288];
    row_at(rt, "area of 512 KiB, records", additional_info::count(area));
    nth(rt, "area of 512 KiB, end of the last record", area, 262143);
    nth(rt, "area of 512 KiB, behind the last record", area, 262144);
    row_at(
        rt,
        "area of 512 KiB and a lone type byte, records",
        additional_info::count(zeros),
    );
}

fn main(rt: HostRuntime) {
    // As in `Calls::run` of `replay`, which is for programs that read records: arguments are not read, so no room is lent for them.
    if !matches!(rt.arg(1, &mut []), Err(FillError::NotPresent)) {
        let _ = eprintln!(rt; "usage: cases");
        return;
    }
    header(&rt, "header, body 65529", 65529);
    header(&rt, "header, body 65530", 65530);
    let bytes = [7u8; 65536];
    let mut buf = [9u8; 65536];
    builders(&rt, &bytes, &mut buf);
    let zeros = [0u8; 524289];
    areas(&rt, &zeros);
}
