//! Which identifier and which RPDOs a message gets, by what clean messages have and what is withheld.
#![tactic(auto)]

mod clean;
mod consumer;
mod consumers;
mod identifiers;
pub mod laws;
mod listed;
mod named;
mod rpdos;
mod taken;
mod wish;

pub use clean::Clean;
pub use consumer::Consumer;
pub use consumers::{consumer_at, consumers_of};
pub use identifiers::{Identifiers, identifiers_of};
pub use listed::Listed;
pub use named::event_named;
pub use rpdos::rpdo_by;
pub use taken::Taken;
pub use wish::Wish;
