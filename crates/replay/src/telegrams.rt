// What the lines tell of an L_Data frame.
ghost use Rattle.replay.specs.Telegrams.{TelegramPromise, AsksPromise};

use crate::telling;
use crate::telling::Told;
use ldata::LDataFields;
use wire::View;

// Its fields, TPCI by kind and sequence, APCI by its variant and its code; where its data stands, and the data's bytes as their remainder.
pub fn telegram(f: LDataFields, view: View, part: &[u8]) -> Told
    ensures { TelegramPromise f view part.now result }
{
    let values = [
        usize::from(f.ctrl1.raw()),
        usize::from(f.ctrl2.raw()),
        usize::from(f.source.to_u16()),
        usize::from(f.destination_raw),
        usize::from(f.npdu_length),
        variants::kind(f.tpci),
        variants::sequence(f.tpci),
        variants::apci(f.apci),
        usize::from(f.apci.to_u16()),
        view.start,
        view.end,
        telling::remainder(part),
        0,
        0,
        0,
        0,
    ];
    Told {
        values,
        ..telling::few(12, [0; 4])
    }
}

// What it asks of a group, and its destination as a group and as an individual address, each one more than its number, none as 0.
pub fn asks(f: LDataFields) -> [usize; 3]
    ensures { AsksPromise f result }
{
    let write = telling::flag(f.is_group_write());
    let read = telling::flag(f.is_group_read());
    let response = telling::flag(f.is_group_response());
    [
        write + 2 * read + 4 * response,
        f.destination_group()
            .map_or(0, |a| usize::from(a.to_u16()) + 1),
        f.destination_individual()
            .map_or(0, |a| usize::from(a.to_u16()) + 1),
    ]
}
