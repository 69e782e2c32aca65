// The calls on a table of eight tunnels, over the byte image that the host lends.
ghost use Rattle.knx.specs.Called.{KeepPromise, EmptyPromise, RefusedPromise, OpenPromise, ClosePromise, TimeoutPromise, SendPromise, DatagramPromise, DatagramStandardPromise, DatagramInPromise};

use crate::building;
use crate::building::KnxWritten;
use tunnel_table::{Called, Table};
use tunnelling::Form;
use wire::{Fault, Refusal};

// C has no Result. A number of 01 and, beside 0, what is said, the view and the count of bytes written to the output; else the offset of the field that decided.
#[repr(C)]
#[derive(Clone, Copy)]
pub struct KnxCalled {
    pub offset: usize,
    pub start: usize,
    pub end: usize,
    pub written: usize,
    pub said: u8,
    pub number: u8,
}

pub fn knx_table_empty(image: &mut [u8]) -> KnxWritten
    ensures { EmptyPromise image.old result image.new }
{
    building::written(tunnel_image::pack(Table::empty().places, image))
}

pub fn knx_table_open(image: &mut [u8], id: u8) -> KnxCalled
    ensures { OpenPromise image.old id result image.new }
{
    if image.len() < tunnel_image::SIZE {
        return refused(Fault::from(Refusal::BufferTooSmall));
    }
    keep(tunnel_image::unpack(image).open(id), image)
}

pub fn knx_table_close(image: &mut [u8], id: u8) -> KnxCalled
    ensures { ClosePromise image.old id result image.new }
{
    if image.len() < tunnel_image::SIZE {
        return refused(Fault::from(Refusal::BufferTooSmall));
    }
    keep(tunnel_image::unpack(image).close(id), image)
}

pub fn knx_table_timeout(image: &mut [u8], id: u8) -> KnxCalled
    ensures { TimeoutPromise image.old id result image.new }
{
    if image.len() < tunnel_image::SIZE {
        return refused(Fault::from(Refusal::BufferTooSmall));
    }
    keep(tunnel_image::unpack(image).timeout(id), image)
}

pub fn knx_table_send(image: &mut [u8], id: u8, cemi: &[u8], out: &mut [u8]) -> KnxCalled
    ensures { SendPromise image.old id cemi.now out.old result image.new out.new }
{
    if image.len() < tunnel_image::SIZE {
        return refused(Fault::from(Refusal::BufferTooSmall));
    }
    keep(tunnel_image::unpack(image).send(id, cemi, out), image)
}

pub fn knx_table_datagram(image: &mut [u8], bytes: &[u8], out: &mut [u8]) -> KnxCalled
    ensures { DatagramPromise image.old bytes.now out.old result image.new out.new }
{
    table_datagram_in(Form::Crate, image, bytes, out)
}

// Its own name for C: with acknowledgements in KNX's own form, both ways.
pub fn knx_table_datagram_standard(image: &mut [u8], bytes: &[u8], out: &mut [u8]) -> KnxCalled
    ensures { DatagramStandardPromise image.old bytes.now out.old result image.new out.new }
{
    table_datagram_in(Form::Standard, image, bytes, out)
}

// A datagram that is refused by its bytes alone needs no table.
fn table_datagram_in(form: Form, image: &mut [u8], bytes: &[u8], out: &mut [u8]) -> KnxCalled
    ensures { DatagramInPromise form image.old bytes.now out.old result image.new out.new }
{
    if image.len() < tunnel_image::SIZE {
        return refused(Fault::from(Refusal::BufferTooSmall));
    }
    let heard = tunnel_datagram::hear_in(form, bytes);
    if let Err(fault) = heard {
        return refused(fault);
    }
    keep(
        tunnel_image::unpack(image).heard_in(form, heard, out),
        image,
    )
}

// What a call on the table gave, as numbers; the table is packed again unless the call was refused.
fn keep(answer: Result<Called, Fault>, image: &mut [u8]) -> KnxCalled
    ensures { KeepPromise answer image.old result image.new }
{
    match answer {
        Ok(called) => {
            let _ = tunnel_image::pack(called.table.places, image);
            KnxCalled {
                offset: 0,
                start: called.view.start,
                end: called.view.end,
                written: called.written,
                said: called.said.number(),
                number: 0,
            }
        }
        Err(fault) => refused(fault),
    }
}

fn refused(fault: Fault) -> KnxCalled
    ensures { RefusedPromise fault result }
{
    KnxCalled {
        offset: fault.at,
        start: 0,
        end: 0,
        written: 0,
        said: 0,
        number: fault.why.number(),
    }
}
