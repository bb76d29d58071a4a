//! Fields of entries and frames that CiA 301 gives several values or parts, by what they say, and the objects of PDOs.
//! Its definitions also have the numbers that CiA 301 gives limits.
#![tactic(auto)]

mod cob_id;
mod consumer_heartbeat_time;
mod identifier;
mod nmt_state;
mod pdo_objects;
mod transmission_type;

pub use cob_id::CobId;
pub use consumer_heartbeat_time::ConsumerHeartbeatTime;
pub use identifier::{Identifier, is_restricted};
pub use nmt_state::NmtState;
pub use pdo_objects::{
    LAST_PDO, is_communication_object, is_mapping_object, is_of_pdos, is_of_rpdos, is_of_tpdos,
    mapping_object, number_of_object, rpdo_object, tpdo_object,
};
pub use transmission_type::TransmissionType;
