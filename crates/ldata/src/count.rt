// How L counts: the crate's way, or KNX's own, which 02 adds. Each function here is one line of the two counts.
ghost use Rattle.std.specs.Prelude.{◌≡◌, ◌≤◌};
ghost use Rattle.ldata.specs.Count.{count_by, standard_allows, DataStartPromise, DataEndPromise, AllowsPromise};

use crate::ldata::LDataFields;
use pci::Apci;

#[derive(Clone, Copy)]
pub enum Counting {
    Crate,
    Standard,
}

impl Counting {
    // Where the application data ends, by L.
    pub fn data_end(self, npdu_length: u8) -> usize
        ensures { DataEndPromise self npdu_length result }
    {
        match self {
            Counting::Crate => 7 + npdu_length as usize,
            Counting::Standard => 8 + npdu_length as usize,
        }
    }

    // Whether a packet may have this L. In the crate's count it may not end before the data starts.
    pub fn allows(self, is_data: bool, npdu_length: u8) -> bool
        ensures { AllowsPromise self is_data npdu_length result }
    {
        match self {
            Counting::Crate => data_start(is_data) <= 7 + npdu_length as usize,
            Counting::Standard => standard_allows(is_data, npdu_length),
        }
    }

    pub(crate) fn least(self) -> usize
        ensures { result ≡ (count_by self).least }
    {
        match self {
            Counting::Crate => LDataFields::MIN_SIZE,
            Counting::Standard => 8,
        }
    }

    // In the crate's count a control packet has no APCI, and `Unknown(0)` stands in for it.
    pub(crate) fn control_apci(self, tpci_byte: u8) -> Apci
        ensures { result ≡ (count_by self).control_apci tpci_byte }
    {
        match self {
            Counting::Crate => Apci::Unknown(0),
            Counting::Standard => Apci::Control(pci::control_code_in(tpci_byte)),
        }
    }

    // L of a data packet that is built with n bytes of data.
    // Its one caller owes the premise; a struct for that would be longer.
    pub(crate) fn npdu_length(self, n: u8) -> u8
        requires { n ≤ 253 }
        ensures { result ≡ (count_by self).length_of n }
    {
        match self {
            Counting::Crate => n + 2,
            Counting::Standard => n + 1,
        }
    }

    pub(crate) fn builds_control(self) -> bool
        ensures { result ≡ (count_by self).builds_control }
    {
        match self {
            Counting::Crate => false,
            Counting::Standard => true,
        }
    }
}

// A data packet has 1 to 254, a control packet 0.
fn standard_allows(is_data: bool, npdu_length: u8) -> bool
    ensures { result ≡ standard_allows is_data npdu_length }
{
    if is_data {
        return 1 <= npdu_length && npdu_length <= 254;
    }
    npdu_length == 0
}

// Where the application data starts, by the kind of packet: in both counts.
pub fn data_start(is_data: bool) -> usize
    ensures { DataStartPromise is_data result }
{
    if is_data { 9 } else { 8 }
}
