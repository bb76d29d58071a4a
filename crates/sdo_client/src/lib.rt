//! The SDO client of CiA 301, and what it and a server do together.
#![tactic(auto)]

mod advance;
mod answers;
mod client;
pub mod client_transfer;
pub mod laws;
mod progress;

pub use advance::{Advance, timed_out};
pub use answers::advanced;
pub use client::{Client, download_started, upload_started};
pub use client_transfer::ClientTransfer;
pub use progress::Progress;
