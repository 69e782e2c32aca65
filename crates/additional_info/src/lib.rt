// The additional information of a cEMI frame: the records between its length byte and the L_Data, such as the
// timestamp that a gateway puts there.
#![tactic(auto)]

mod appending;
mod area;
mod info_type;

pub use appending::{append, judge};
pub use area::{AdditionalInfo, count, nth};
pub use info_type::AdditionalInfoType;
