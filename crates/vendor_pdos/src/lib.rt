//! Which PDOs of a device, as its vendor made it, serve a message (version 3): what can be written of them, and what
//! serves as it stands by default.
#![tactic(auto)]

mod fixed;
mod known_stations;
mod mappings;
mod parameters;
mod present;
mod serving;
mod wanted;
mod withheld;

pub use fixed::fixed_identifier;
pub use known_stations::KnownStations;
pub use mappings::writes_mapping;
pub use parameters::{
    can_be_set, has_at, has_parameter, is_open, number_serves, parameter_default, parameter_width,
};
pub use present::{next_rpdo, next_tpdo};
pub use serving::{sends, takes};
pub use wanted::{Sender, Taker, Wants};
