// `LDataFrame` without its data: the fields of an L_Data frame, whose slice stands beside it as a parameter.
ghost use Rattle.std.specs.Prelude.{◌≡◌};
ghost use Rattle.wire.specs.Places.{standing};
ghost use Rattle.ldata.specs.Count.{count_by};
ghost use Rattle.ldata.specs.LData.{checks, offsets, ApciPromise, ParsePromise, ParseInPromise, DataPromise, DataInPromise, DataPartPromise, DataPartInPromise, DestinationGroupPromise, DestinationIndividualPromise, IsServicePromise};

use crate::count::{Counting, data_start};
use address::{GroupAddress, IndividualAddress};
use control::{ControlField1, ControlField2};
use pci::{Apci, Tpci};
use wire::{Fault, Refusal, View};

#[derive(Clone, Copy)]
pub struct LDataFields {
    pub ctrl1: ControlField1,
    pub ctrl2: ControlField2,
    pub source: IndividualAddress,
    pub destination_raw: u16,
    pub npdu_length: u8,
    pub tpci: Tpci,
    pub apci: Apci,
}

impl LDataFields {
    // Control packets need nine bytes too, as in the Rust.
    pub const MIN_SIZE: usize = 9;

    // In the crate's count, as in the Rust.
    pub fn parse(data: &[u8]) -> Result<LDataFields, Fault>
        ensures { ParsePromise «data».now result }
    {
        LDataFields::parse_in(Counting::Crate, data)
    }

    pub fn parse_in(counting: Counting, data: &[u8]) -> Result<LDataFields, Fault>
        ensures { ParseInPromise counting «data».now result }
    {
        let npdu_length = wire::byte_at(data, 6);
        let tpci_byte = wire::byte_at(data, 7);
        let tpci = Tpci::from_byte(tpci_byte);
        let is_data = tpci.is_data();
        stands(counting, data.len(), is_data, npdu_length)?;
        let ctrl1 = ControlField1::from_u8(wire::byte_at(data, 0));
        let ctrl2 = ControlField2::from_u8(wire::byte_at(data, 1));
        let source = IndividualAddress::from_u16(wire::word_at(data, 2));
        let destination_raw = wire::word_at(data, 4);
        let apci = apci_of(counting, is_data, tpci_byte, wire::byte_at(data, 8));
        Ok(LDataFields {
            ctrl1,
            ctrl2,
            source,
            destination_raw,
            npdu_length,
            tpci,
            apci,
        })
    }

    // Where the application data stands in the slice, in the crate's count.
    pub fn data(self, data: &[u8]) -> Result<View, Fault>
        ensures { DataPromise self «data».now result }
    {
        self.data_in(Counting::Crate, data)
    }

    pub fn data_in(self, counting: Counting, data: &[u8]) -> Result<View, Fault>
        ensures { DataInPromise counting self «data».now result }
    {
        let is_data = self.tpci.is_data();
        stands(counting, data.len(), is_data, self.npdu_length)?;
        Ok(View {
            start: data_start(is_data),
            end: counting.data_end(self.npdu_length),
        })
    }

    pub fn data_part(self, data: &[u8]) -> &[u8]
        ensures { DataPartPromise self «data».now result.now }
    {
        self.data_part_in(Counting::Crate, data)
    }

    pub fn data_part_in(self, counting: Counting, data: &[u8]) -> &[u8]
        ensures { DataPartInPromise counting self «data».now result.now }
    {
        wire::shown(data, self.data_in(counting, data))
    }

    pub fn destination_group(self) -> Option<GroupAddress>
        ensures { DestinationGroupPromise self result }
    {
        if self.ctrl2.is_group_address() {
            return Some(GroupAddress::from_u16(self.destination_raw));
        }
        None
    }

    pub fn destination_individual(self) -> Option<IndividualAddress>
        ensures { DestinationIndividualPromise self result }
    {
        if self.ctrl2.is_group_address() {
            return None;
        }
        Some(IndividualAddress::from_u16(self.destination_raw))
    }

    pub fn is_group_write(self) -> bool
        ensures { IsServicePromise 0x080 self result }
    {
        self.apci.is_named(0x080)
    }

    pub fn is_group_read(self) -> bool
        ensures { IsServicePromise 0x000 self result }
    {
        self.apci.is_named(0x000)
    }

    pub fn is_group_response(self) -> bool
        ensures { IsServicePromise 0x040 self result }
    {
        self.apci.is_named(0x040)
    }
}

// The APCI of a data packet; a control packet's is the count's.
fn apci_of(counting: Counting, is_data: bool, byte1: u8, byte2: u8) -> Apci
    ensures { ApciPromise counting is_data byte1 byte2 result }
{
    if is_data {
        return Apci::from_bytes(byte1, byte2);
    }
    counting.control_apci(byte1)
}

// The checks of an L_Data frame over a slice of n bytes, whoever made its fields. The last two both refuse with 2 at L, so one order of them answers for both counts.
fn stands(counting: Counting, n: usize, is_data: bool, npdu_length: u8) -> Result<(), Fault>
    ensures { result ≡ standing (checks (count_by counting) n is_data npdu_length) (offsets n) }
{
    if n < counting.least() {
        return Err(Fault {
            why: Refusal::BufferTooSmall,
            at: n,
        });
    }
    if n < counting.data_end(npdu_length) {
        return Err(Fault {
            why: Refusal::InvalidFrame,
            at: 6,
        });
    }
    if counting.allows(is_data, npdu_length) {
        return Ok(());
    }
    Err(Fault {
        why: Refusal::InvalidFrame,
        at: 6,
    })
}
