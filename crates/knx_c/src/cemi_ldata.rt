// A cEMI frame as L_Data, for C.
ghost use Rattle.knx.specs.CemiLData.{CemiLDataPromise, CemiLDataStandardPromise};

use knx::KnxLData;

#[unsafe(no_mangle)]
pub extern "C" fn knx_cemi_ldata(data: &[u8]) -> KnxLData
    ensures { CemiLDataPromise «data».now result }
{
    knx::knx_cemi_ldata(data)
}

#[unsafe(no_mangle)]
pub extern "C" fn knx_cemi_ldata_standard(data: &[u8]) -> KnxLData
    ensures { CemiLDataStandardPromise «data».now result }
{
    knx::knx_cemi_ldata_standard(data)
}
