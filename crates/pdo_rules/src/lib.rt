//! PDOs of a device (CiA 301): which of them work, when a TPDO is sent, and what becomes of a frame
//! that an RPDO receives; and PDO mapping, the values of mapped entries as the bits of a frame.
#![tactic(auto)]

mod bits;
mod communication;
mod configuration;
pub mod laws;
mod mapping;
pub mod mapping_laws;
mod packing;
mod payload;
mod receipt;
mod sync;
mod sync_seen;
mod tpdo;
mod unpacking;
mod working;

pub use communication::Communication;
pub use configuration::Configuration;
pub use mapping::Mapping;
pub use packing::pack;
pub use receipt::{Receipt, received};
pub use sync::SyncMessage;
pub use sync_seen::SyncSeen;
pub use tpdo::Tpdo;
pub use unpacking::{unpack, unpack_entry};
pub use working::{is_pdo, works};
