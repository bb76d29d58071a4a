//! The NMT manager of a network (CiA 302).
#![tactic(auto, using(image_parts::proofs::RecordLemmas::record_laws))]

pub mod laws;
mod manager;
mod periodic;
mod periodic_message;
mod startup;
mod sync;
mod telling;
mod time;

pub use manager::Manager;
pub use node_boot::{Note, NoteKind, Notes};
pub use periodic::Periodic;
pub use periodic_message::PeriodicMessage;
