// What is said and what is waited for as numbers: at the C border, and in a table's image. C has no enum with a fixed size, so the numbers stand beside the names here and in include/knx.h.
ghost use Rattle.tunnel.specs.Numbers.{SaidNumberPromise, WaitNumberPromise, WaitFromPromise};

use crate::rules::{Said, Wait};

impl Said {
    pub fn number(self) -> u8
        ensures { SaidNumberPromise self result }
    {
        match self {
            Said::Nothing => 0,
            Said::Repeat => 1,
            Said::GiveUp => 2,
            Said::Deliver => 3,
            Said::Duplicate => 4,
            Said::OutOfOrder => 5,
            Said::Sent => 6,
            Said::Ignored => 7,
        }
    }
}

impl Wait {
    pub fn number(self) -> u8
        ensures { WaitNumberPromise self result }
    {
        match self {
            Wait::Idle => 0,
            Wait::First => 1,
            Wait::Second => 2,
        }
    }

    // Every number has a meaning: what is above 1 waits second.
    pub fn from_u8(n: u8) -> Wait
        ensures { WaitFromPromise n result }
    {
        match n {
            0 => Wait::Idle,
            1 => Wait::First,
            _ => Wait::Second,
        }
    }
}
