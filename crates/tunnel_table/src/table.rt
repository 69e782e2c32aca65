// The calls on a table of eight tunnels, by value in and out.
ghost use Rattle.std.specs.Prelude.{◌≡◌, []};
ghost use Rattle.tunnel_datagram.specs.Hearing.{channel_offset};
ghost use Rattle.tunnel_model.specs.Calls.{Open, Close, Timeout, Send, Datagram, DatagramIn};
ghost use Rattle.tunnel_table.specs.Places.{left_in};
ghost use Rattle.tunnel_table.specs.Spots.{SpotPromise};
ghost use Rattle.tunnel_table.specs.Table.{EmptyPromise, CallPromise, HeardPromise, HeardInPromise, AcknowledgementPromise, ReactPromise, AckPromise, called_as, on, request_rule, saying, put_at};

use crate::places;
use crate::places::Held;
use crate::spot::Spot;
use tunnel::{Arrival, Said, Stepped, Tunnel};
use tunnel_datagram::{CEMI_START, CHANNEL_OFFSET, Heard};
use tunnelling::{ConnectionHeader, Form, TunnelingAck, TunnelingRequest};
use wire::{Fault, Refusal, View};

#[derive(Clone, Copy)]
pub struct Table {
    pub places: [Option<Held>; 8],
}

// What a call gives that is not refused: what is said, the view, the count of bytes written, and the table afterwards.
#[derive(Clone, Copy)]
pub struct Called {
    pub said: Said,
    pub view: View,
    pub written: usize,
    pub table: Table,
}

// What follows from a request that is acknowledged: what is said, the view, and the channel afterwards.
#[derive(Clone, Copy)]
struct Reaction {
    said: Said,
    view: View,
    tunnel: Tunnel,
}

// What shows nothing.
const NO_VIEW: View = View { start: 0, end: 0 };

impl Table {
    pub fn empty() -> Table
        ensures { EmptyPromise result }
    {
        Table { places: [None; 8] }
    }

    pub fn open(self, id: u8) -> Result<Called, Fault>
        ensures { CallPromise self (Open id) result [] }
    {
        match places::find(&self.places, Some(id)) {
            Some(_) => Err(Fault::from(Refusal::AlreadyOpen)),
            None => match places::find(&self.places, None) {
                Some(spot) => {
                    let tunnel = Tunnel::fresh();
                    Ok(self.put(spot, Some(Held { id, tunnel })).say(Said::Nothing))
                }
                None => Err(Fault::from(Refusal::TableFull)),
            },
        }
    }

    pub fn close(self, id: u8) -> Result<Called, Fault>
        ensures { CallPromise self (Close id) result [] }
    {
        let spot = self.spot(id, 0)?;
        Ok(self.put(spot, None).say(Said::Nothing))
    }

    pub fn timeout(self, id: u8) -> Result<Called, Fault>
        ensures { CallPromise self (Timeout id) result [] }
    {
        let spot = self.spot(id, 0)?;
        let tunnel = places::tunnel_in(self.places[spot.at]);
        let stepped = tunnel.timeout()?;
        Ok(self.step(spot, id, stepped))
    }

    // The refusals of the request are those of its builder.
    pub fn send(self, id: u8, cemi: &[u8], out: &mut [u8]) -> Result<Called, Fault>
        ensures { CallPromise self (Send id cemi.now out.old) result out.new }
    {
        let spot = self.spot(id, 0)?;
        let tunnel = places::tunnel_in(self.places[spot.at]);
        if tunnel.waits() {
            return Err(Fault::from(Refusal::AwaitsAck));
        }
        let header = ConnectionHeader::new(id, tunnel.s);
        let written = TunnelingRequest::new(header).build(cemi, out)?;
        let sending = tunnel.sending();
        Ok(Called {
            said: Said::Nothing,
            view: NO_VIEW,
            written,
            table: self.put(
                spot,
                Some(Held {
                    id,
                    tunnel: sending,
                }),
            ),
        })
    }

    pub fn datagram(self, bytes: &[u8], out: &mut [u8]) -> Result<Called, Fault>
        ensures { CallPromise self (Datagram bytes.now out.old) result out.new }
    {
        self.datagram_in(Form::Crate, bytes, out)
    }

    // Acknowledgements are read and written in this form. Only a datagram that names a channel gets as far as the table.
    pub fn datagram_in(self, form: Form, bytes: &[u8], out: &mut [u8]) -> Result<Called, Fault>
        ensures { CallPromise self (DatagramIn form bytes.now out.old) result out.new }
    {
        self.heard_in(form, tunnel_datagram::hear_in(form, bytes), out)
    }

    // What was heard of a datagram, for a caller that has heard it already.
    pub fn heard(self, heard: Result<Heard, Fault>, out: &mut [u8]) -> Result<Called, Fault>
        ensures { HeardPromise self heard out.old result out.new }
    {
        self.heard_in(Form::Crate, heard, out)
    }

    pub fn heard_in(
        self,
        form: Form,
        heard: Result<Heard, Fault>,
        out: &mut [u8],
    ) -> Result<Called, Fault>
        ensures { HeardInPromise form self heard out.old result out.new }
    {
        match heard {
            Ok(
                Heard::Request {
                    channel,
                    number,
                    end,
                },
            ) => self.request(form, channel, number, end, out),
            Ok(
                Heard::Ack {
                    channel,
                    number,
                    status,
                },
            ) => self.acknowledgement(channel, number, status),
            Err(fault) => Err(fault),
        }
    }

    fn request(
        self,
        form: Form,
        channel: u8,
        number: u8,
        end: usize,
        out: &mut [u8],
    ) -> Result<Called, Fault>
        ensures { called_as self result out.new ≡ on channel_offset channel (request_rule form channel number end out.old) out.old self.places }
    {
        let spot = self.spot(channel, CHANNEL_OFFSET)?; // before anything is written
        let tunnel = places::tunnel_in(self.places[spot.at]);
        match tunnel.arrival(number) {
            Arrival::Deliver => {
                let delivered = tunnel.delivered();
                let reaction = Reaction {
                    said: Said::Deliver,
                    view: View {
                        start: CEMI_START,
                        end,
                    },
                    tunnel: delivered,
                };
                self.react(form, spot, channel, number, reaction, out)
            }
            Arrival::Duplicate => {
                let reaction = Reaction {
                    said: Said::Duplicate,
                    view: NO_VIEW,
                    tunnel,
                };
                self.react(form, spot, channel, number, reaction, out)
            }
            Arrival::OutOfOrder => Ok(self.say(Said::OutOfOrder)),
        }
    }

    // Nothing happens where the acknowledgement has no room.
    fn react(
        self,
        form: Form,
        spot: Spot,
        channel: u8,
        number: u8,
        reaction: Reaction,
        out: &mut [u8],
    ) -> Result<Called, Fault>
        ensures { ReactPromise form self spot channel number reaction out.old result out.new }
    {
        let written = write_ack(form, channel, number, out)?;
        let tunnel = reaction.tunnel;
        Ok(Called {
            said: reaction.said,
            view: reaction.view,
            written,
            table: self.put(
                spot,
                Some(Held {
                    id: channel,
                    tunnel,
                }),
            ),
        })
    }

    fn acknowledgement(self, channel: u8, number: u8, status: u8) -> Result<Called, Fault>
        ensures { AcknowledgementPromise self channel number status result }
    {
        let spot = self.spot(channel, CHANNEL_OFFSET)?;
        let tunnel = places::tunnel_in(self.places[spot.at]);
        let stepped = tunnel.acknowledged(number, status)?;
        Ok(self.step(spot, channel, stepped))
    }

    // The place of an open channel; else 9, at the field that names it.
    fn spot(self, id: u8, at: usize) -> Result<Spot, Fault>
        ensures { SpotPromise self id at result }
    {
        match places::find(&self.places, Some(id)) {
            Some(spot) => Ok(spot),
            None => Err(Fault {
                why: Refusal::NotOpen,
                at,
            }),
        }
    }

    // What is said, with no view and nothing written.
    fn say(self, said: Said) -> Called
        ensures { result ≡ saying self said }
    {
        Called {
            said,
            view: NO_VIEW,
            written: 0,
            table: self,
        }
    }

    fn put(self, spot: Spot, place: Option<Held>) -> Table
        ensures { result ≡ put_at self spot place }
    {
        let mut table = self;
        table.places[spot.at] = place;
        table
    }

    fn step(self, spot: Spot, id: u8, stepped: Stepped) -> Called
        ensures { result ≡ saying (put_at self spot (left_in id stepped.left)) stepped.said }
    {
        self.put(spot, places::left_in(id, stepped.left))
            .say(stepped.said)
    }
}

// The acknowledgement of a request, with status 0.
fn write_ack(form: Form, channel: u8, number: u8, out: &mut [u8]) -> Result<usize, Refusal>
    ensures { AckPromise form channel number out.old result out.new }
{
    let header = ConnectionHeader::new(channel, number);
    TunnelingAck::new(header, 0).build_in(form, out)
}
