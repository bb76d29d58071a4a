//! Kept stretches of a trace: a simulation goes on from what is held, and runs only what isn't.
//!
//! A *segment* is a span of 10,000 microseconds, from the bus at its start on, with the parts that it read
//! of an image, the lines that it told, and the bus at its end. It *serves* where its bus is reached
//! again, and the image has the same values at what it read.
#![tactic(auto, using(image_parts::proofs::RecordLemmas::record_laws))]

mod finding;
mod numbered_bus;
mod numbers_given;
mod reached;
mod rejoining;
mod segment;
mod serving;
mod sight;
mod stock;
mod store;
mod telling;

pub use store::Store;
