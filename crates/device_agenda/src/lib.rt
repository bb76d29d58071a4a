//! Devices that run only when they are due.
#![tactic(auto, using(image_parts::proofs::RecordLemmas::record_laws))]

mod agenda;
mod alarm;
mod delivery;
mod groups;
mod ignored;
pub mod laws;
mod low_bytes;
mod reach;
mod schedule;
mod scheduled_device;
mod stirring;

pub use agenda::Agenda;
pub use alarm::Alarm;
pub use delivery::Delivery;
pub use groups::Groups;
pub use low_bytes::LowBytes;
pub use scheduled_device::ScheduledDevice;
