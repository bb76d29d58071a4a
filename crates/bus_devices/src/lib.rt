//! The devices of a bus, of which only those run that have to, and what the events of a scenario do to them.
#![tactic(auto, using(image_parts::proofs::RecordLemmas::record_laws))]

mod apart;
mod block;
mod blocks;
mod devices;
pub mod event_laws;
mod events;
mod known;
mod lists;
mod outlook;

pub use apart::Apart;
pub use devices::Devices;
pub use events::run_events;
pub use lists::{new_devices, power_all};
