// Additional information, for C.
ghost use Rattle.knx.specs.Info as KnxInfo;

use knx::{KnxAdditionalInfo, KnxCount, KnxPart, KnxWritten};

#[unsafe(no_mangle)]
pub extern "C" fn knx_cemi_additional_info(data: &[u8]) -> KnxPart
    ensures { KnxInfo.AreaPromise «data».now result }
{
    knx::knx_cemi_additional_info(data)
}

#[unsafe(no_mangle)]
pub extern "C" fn knx_additional_info(area: &[u8]) -> KnxAdditionalInfo
    ensures { KnxInfo.FirstPromise area.now result }
{
    knx::knx_additional_info(area)
}

#[unsafe(no_mangle)]
pub extern "C" fn knx_additional_info_nth(area: &[u8], n: usize) -> KnxAdditionalInfo
    ensures { KnxInfo.NthPromise area.now n result }
{
    knx::knx_additional_info_nth(area, n)
}

#[unsafe(no_mangle)]
pub extern "C" fn knx_additional_info_count(area: &[u8]) -> KnxCount
    ensures { KnxInfo.CountPromise area.now result }
{
    knx::knx_additional_info_count(area)
}

#[unsafe(no_mangle)]
pub extern "C" fn knx_additional_info_append(
    area: &[u8],
    info_type: u8,
    data: &[u8],
    out: &mut [u8],
) -> KnxWritten
    ensures { KnxInfo.AppendPromise area.now info_type «data».now out.old result out.new }
{
    knx::knx_additional_info_append(area, info_type, data, out)
}

#[unsafe(no_mangle)]
pub extern "C" fn knx_cemi_build(
    message_code: u8,
    additional_info: &[u8],
    service_info: &[u8],
    out: &mut [u8],
) -> KnxWritten
    ensures { KnxInfo.BuildPromise message_code additional_info.now service_info.now out.old result out.new }
{
    knx::knx_cemi_build(message_code, additional_info, service_info, out)
}
