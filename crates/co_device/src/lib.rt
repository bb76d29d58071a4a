//! A device of the bus.
#![tactic(auto, using(image_parts::proofs::RecordLemmas::record_laws))]

mod device;
mod emergencies;
mod error_control;
mod nmt_services;
mod receiving;
mod requests;
mod resets;
mod rpdos;
mod timers;
mod writes;

pub use device::{Device, Device as DeviceState};
