//! The diagnostics of a project: all that is wrong with it, each once, in order.
#![tactic(auto)]

mod consumers;
mod counters;
mod events;
mod finding;
mod found_before;
mod heartbeats;
pub mod laws;
mod lines_found;
mod messages;
mod shared;
mod texts;
mod useless;
mod vendor;

pub use diag_lines::Diag;
pub use finding::{diagnostics, diagnostics_by};
pub use found_before::FoundBefore;
