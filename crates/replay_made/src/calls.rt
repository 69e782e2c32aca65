// The calls on records that no parse made, 52 to 57, and in the standard count, 69 and 70. Argument bytes that are missing count as 0; another call gets a line that no call has.
use crate::{borrowing, frames, telegrams};
use replay::{Calls, Told};

#[derive(Drop)]
pub(crate) struct MadeCalls;

impl Calls for MadeCalls {
    fn answer(&mut self, call: u8, args: &[u8], _buf: &mut [u8]) -> Told {
        // A record names its call by a number.
        match call {
            52 => frames::accessors(args),
            53 => telegrams::cemi(args),
            54 => telegrams::as_ldata(args),
            55 => telegrams::ldata(args),
            56 => borrowing::body(args),
            57 => borrowing::data(args),
            69 => telegrams::ldata_standard(args),
            70 => borrowing::data_standard(args),
            _ => replay::few(0, [0; 4]),
        }
    }
}
