// The writer: an area copied, and a record behind it.
ghost use Rattle.std.specs.Prelude.{◌≡◌, ◌+◌, ltb};
ghost use Rattle.additional_info.specs.Area.{unfilled};
ghost use Rattle.additional_info.specs.Appending.{JudgePromise, AppendPromise};

use crate::area;
use crate::info_type::AdditionalInfoType;
use wire::Refusal;

pub fn append(
    area: &[u8],
    info_type: AdditionalInfoType,
    data: &[u8],
    buf: &mut [u8],
) -> Result<usize, Refusal>
    ensures { AppendPromise area.now info_type «data».now buf.old result buf.new }
{
    judge(area, 2 + data.len())?;
    let head = [info_type.to_u8(), data.len() as u8];
    wire::write3(area, &head, data, buf)
}

// Whether an area is readable, and with so many bytes more behind it fits its length byte.
pub fn judge(area: &[u8], more: usize) -> Result<(), Refusal>
    ensures { JudgePromise area.now more result }
{
    if unfilled(area) {
        return Err(Refusal::InvalidAdditionalInfo);
    }
    if too_long(area.len(), more) {
        return Err(Refusal::PayloadTooLarge);
    }
    Ok(())
}

fn unfilled(area: &[u8]) -> bool
    ensures { result ≡ unfilled area.now }
{
    area::count(area).is_err()
}

// Whether n and m bytes together are more than 255, asked without a sum that could wrap.
fn too_long(n: usize, m: usize) -> bool
    ensures { result ≡ ltb 255 (n + m) }
{
    if 255 < m {
        return true;
    }
    255 - m < n
}
