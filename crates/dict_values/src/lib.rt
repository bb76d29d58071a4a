//! The values of an object dictionary, in layers that copies share.
#![tactic(auto)]

mod dict;
mod entries;
mod fingerprint;
mod held;
mod layer;
mod places;
mod table;

pub use dict::Dict;
