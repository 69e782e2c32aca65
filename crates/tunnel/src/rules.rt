// 01's rules on the two numbers of a channel and on what it waits for.
ghost use Rattle.std.specs.Prelude.{◌≡◌};
ghost use Rattle.tunnel.specs.Rules.{stays, FreshPromise, WaitsPromise, TimeoutPromise, ArrivalPromise, DeliveredPromise, AcknowledgedPromise, SendingPromise};

use wire::Refusal;

#[derive(Clone, Copy)]
pub enum Wait {
    Idle,
    First,
    Second,
}

// An open channel: the number that is expected, the number that is sent, and what it waits for.
#[derive(Clone, Copy)]
pub struct Tunnel {
    pub r: u8,
    pub s: u8,
    pub w: Wait,
}

// The quoted answers; `Nothing` where 01 gives a number alone. Not an Option of a Said: include/knx.h and `Numbers.said_of` number the eight together, from 0.
#[derive(Clone, Copy)]
pub enum Said {
    Nothing,
    Repeat,
    GiveUp,
    Deliver,
    Duplicate,
    OutOfOrder,
    Sent,
    Ignored,
}

// What a request's number means to a channel.
#[derive(Clone, Copy)]
pub enum Arrival {
    Deliver,
    Duplicate,
    OutOfOrder,
}

// What a step says, and what it leaves of the channel: nothing where it is closed.
#[derive(Clone, Copy)]
pub struct Stepped {
    pub said: Said,
    pub left: Option<Tunnel>,
}

impl Tunnel {
    pub fn fresh() -> Tunnel
        ensures { FreshPromise result }
    {
        Tunnel {
            r: 0,
            s: 0,
            w: Wait::Idle,
        }
    }

    pub fn waits(self) -> bool
        ensures { WaitsPromise self result }
    {
        !matches!(self.w, Wait::Idle)
    }

    // A send that is written: the channel waits for the first time.
    pub fn sending(self) -> Tunnel
        ensures { SendingPromise self result }
    {
        Tunnel {
            r: self.r,
            s: self.s,
            w: Wait::First,
        }
    }

    pub fn timeout(self) -> Result<Stepped, Refusal>
        ensures { TimeoutPromise self result }
    {
        match self.w {
            Wait::Idle => Err(Refusal::AwaitsNothing),
            Wait::First => Ok(stay(
                Said::Repeat,
                Tunnel {
                    r: self.r,
                    s: self.s,
                    w: Wait::Second,
                },
            )),
            Wait::Second => Ok(Stepped {
                said: Said::GiveUp,
                left: None,
            }),
        }
    }

    pub fn arrival(self, number: u8) -> Arrival
        ensures { ArrivalPromise self number result }
    {
        if number == self.r {
            return Arrival::Deliver;
        }
        if number == self.r.wrapping_sub(1) {
            return Arrival::Duplicate;
        }
        Arrival::OutOfOrder
    }

    // A request that is delivered: 255 is followed by 0.
    pub fn delivered(self) -> Tunnel
        ensures { DeliveredPromise self result }
    {
        let mut t = self;
        t.r = self.r.wrapping_add(1);
        t
    }

    // A status other than 0 acts as a timeout.
    pub fn acknowledged(self, number: u8, status: u8) -> Result<Stepped, Refusal>
        ensures { AcknowledgedPromise self number status result }
    {
        if !self.waits() {
            return Ok(stay(Said::Ignored, self));
        }
        if number != self.s {
            return Ok(stay(Said::Ignored, self));
        }
        if status != 0 {
            return self.timeout();
        }
        Ok(stay(
            Said::Sent,
            Tunnel {
                r: self.r,
                s: self.s.wrapping_add(1),
                w: Wait::Idle,
            },
        ))
    }
}

fn stay(said: Said, t: Tunnel) -> Stepped
    ensures { result ≡ stays said t }
{
    Stepped {
        said,
        left: Some(t),
    }
}
