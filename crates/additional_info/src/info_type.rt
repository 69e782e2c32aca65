// The type of a record: cemi.rs, `AdditionalInfoType`; a type without a name is kept by its number.
ghost use Rattle.additional_info.specs.InfoType.{FromPromise, ToPromise};

#[derive(Clone, Copy)]
pub enum AdditionalInfoType {
    PlMediumInfo,
    RfMediumInfo,
    BusmonitorErrorFlags,
    RelativeTimestamp,
    TimeDelay,
    ExtendedRelativeTimestamp,
    BiBatInfo,
    Unknown(u8),
}

impl AdditionalInfoType {
    // Not From: 01 and the published crate name from_u8 and to_u8, and a second name would say the same twice.
    pub fn from_u8(value: u8) -> AdditionalInfoType
        ensures { FromPromise value result }
    {
        match value {
            0x01 => AdditionalInfoType::PlMediumInfo,
            0x02 => AdditionalInfoType::RfMediumInfo,
            0x03 => AdditionalInfoType::BusmonitorErrorFlags,
            0x04 => AdditionalInfoType::RelativeTimestamp,
            0x05 => AdditionalInfoType::TimeDelay,
            0x06 => AdditionalInfoType::ExtendedRelativeTimestamp,
            0x07 => AdditionalInfoType::BiBatInfo,
            _ => AdditionalInfoType::Unknown(value),
        }
    }

    pub fn to_u8(self) -> u8
        ensures { ToPromise self result }
    {
        match self {
            AdditionalInfoType::PlMediumInfo => 0x01,
            AdditionalInfoType::RfMediumInfo => 0x02,
            AdditionalInfoType::BusmonitorErrorFlags => 0x03,
            AdditionalInfoType::RelativeTimestamp => 0x04,
            AdditionalInfoType::TimeDelay => 0x05,
            AdditionalInfoType::ExtendedRelativeTimestamp => 0x06,
            AdditionalInfoType::BiBatInfo => 0x07,
            AdditionalInfoType::Unknown(value) => value,
        }
    }
}
