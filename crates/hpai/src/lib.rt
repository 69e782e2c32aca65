// Host protocol address information: frame.rs, `Hpai`.
#![tactic(auto)]

ghost use Rattle.hpai.specs.Hpai.{NewPromise, ParsePromise, EncodePromise, ToBytesPromise};

use constants::IPV4_UDP;
use wire::{Fault, Refusal};

#[derive(Clone, Copy)]
pub struct Hpai {
    pub structure_length: u8,
    pub host_protocol: u8,
    pub ip_address: [u8; 4],
    pub port: u16,
}

impl Hpai {
    pub const SIZE: usize = 8;

    pub fn new(ip_address: [u8; 4], port: u16) -> Hpai
        ensures { NewPromise ip_address port result }
    {
        Hpai {
            structure_length: 8,
            host_protocol: IPV4_UDP,
            ip_address,
            port,
        }
    }

    pub fn parse(data: &[u8]) -> Result<Hpai, Fault>
        ensures { ParsePromise «data».now result }
    {
        if data.len() < Self::SIZE {
            return Err(Fault {
                why: Refusal::BufferTooSmall,
                at: data.len(),
            });
        }
        let structure_length = data[0];
        if structure_length != 8 {
            return Err(Fault {
                why: Refusal::InvalidFrame,
                at: 0,
            });
        }
        let ip_address = [data[2], data[3], data[4], data[5]];
        Ok(Hpai {
            structure_length,
            host_protocol: data[1],
            ip_address,
            port: wire::word_at(data, 6),
        })
    }

    // Writes the fields as they are, the length too.
    // Alike in the three records that have it: a trait would be longer than these two lines, and `EncodePromise` is of each.
    pub fn encode(self, buf: &mut [u8]) -> Result<usize, Refusal>
        ensures { EncodePromise self buf.old result buf.new }
    {
        let bytes = self.to_bytes();
        wire::write(&bytes, buf)
    }

    // Not From: ToBytesPromise is of this name, beside that of encode.
    pub fn to_bytes(self) -> [u8; 8]
        ensures { ToBytesPromise self result }
    {
        let ip = self.ip_address;
        [
            self.structure_length,
            self.host_protocol,
            ip[0],
            ip[1],
            ip[2],
            ip[3],
            wire::high(self.port),
            wire::low(self.port),
        ]
    }
}
