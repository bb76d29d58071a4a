//! What the devices of nodes say, as the plan of messages asks it: entries and their widths, dummies,
//! and PDOs with room for a mapping; of one message its sources with their widths, and what PDOs map
//! of them; of one node which of its RPDOs are spare.
#![tactic(auto)]

mod as_made;
mod carried;
mod consumed;
mod dummy;
mod makes;
mod mappable;
mod mapped;
mod room;
mod seats;
mod sender;
mod station;
mod stations;
mod taken_rpdos;

pub use as_made::AsMade;
pub use carried::{Carried, bits_in, carried_at, carried_sources, sent_mapping, total_bits};
pub use consumed::{lacks_dummy, taken_mapping};
pub use dummy::dummy_type;
pub use mappable::Mappable;
pub use mapped::Mapped;
pub use room::{is_unsigned, takes_unsigned};
pub use seats::Seats;
pub use sender::has_tpdo;
pub use station::Station;
pub use stations::Stations;
pub use taken_rpdos::{TakenRpdos, is_spare};
