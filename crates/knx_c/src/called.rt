// The table in its bytes, for C.
ghost use Rattle.knx.specs.Called.{EmptyPromise, OpenPromise, ClosePromise, TimeoutPromise, SendPromise, DatagramPromise, DatagramStandardPromise};

use knx::{KnxCalled, KnxWritten};

#[unsafe(no_mangle)]
pub extern "C" fn knx_table_empty(image: &mut [u8]) -> KnxWritten
    ensures { EmptyPromise image.old result image.new }
{
    knx::knx_table_empty(image)
}

#[unsafe(no_mangle)]
pub extern "C" fn knx_table_open(image: &mut [u8], id: u8) -> KnxCalled
    ensures { OpenPromise image.old id result image.new }
{
    knx::knx_table_open(image, id)
}

#[unsafe(no_mangle)]
pub extern "C" fn knx_table_close(image: &mut [u8], id: u8) -> KnxCalled
    ensures { ClosePromise image.old id result image.new }
{
    knx::knx_table_close(image, id)
}

#[unsafe(no_mangle)]
pub extern "C" fn knx_table_timeout(image: &mut [u8], id: u8) -> KnxCalled
    ensures { TimeoutPromise image.old id result image.new }
{
    knx::knx_table_timeout(image, id)
}

#[unsafe(no_mangle)]
pub extern "C" fn knx_table_send(image: &mut [u8], id: u8, cemi: &[u8], out: &mut [u8]) -> KnxCalled
    ensures { SendPromise image.old id cemi.now out.old result image.new out.new }
{
    knx::knx_table_send(image, id, cemi, out)
}

#[unsafe(no_mangle)]
pub extern "C" fn knx_table_datagram(image: &mut [u8], bytes: &[u8], out: &mut [u8]) -> KnxCalled
    ensures { DatagramPromise image.old bytes.now out.old result image.new out.new }
{
    knx::knx_table_datagram(image, bytes, out)
}

#[unsafe(no_mangle)]
pub extern "C" fn knx_table_datagram_standard(
    image: &mut [u8],
    bytes: &[u8],
    out: &mut [u8],
) -> KnxCalled
    ensures { DatagramStandardPromise image.old bytes.now out.old result image.new out.new }
{
    knx::knx_table_datagram_standard(image, bytes, out)
}
