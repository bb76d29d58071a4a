//! SDO transfers of CiA 301: their frames, and the server of a device.
#![tactic(auto)]

mod downloads;
pub mod frames;
pub mod laws;
mod rest;
mod server;
mod step;
pub mod transfer;
mod uploads;

pub use rest::Rest;
pub use server::{Reply, Server, answered};
pub use step::Step;
